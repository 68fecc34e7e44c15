// A picture: its groups and their macroblocks, laid out as they are read.
ghost use Rattle.std.specs.Prelude.{◌≡◌, []};
ghost use Rattle.bits.specs.Bits.{bits_left};
ghost use Rattle.fields.specs.Answer.{map_read, leaving};
ghost use Rattle.layout.specs.Flat.{put_groups, flat};
ghost use Rattle.h263_description.specs.Value.{shape, group_numbers};
ghost use Rattle.h263_description.specs.Fields.{stands};
ghost use Rattle.h263_layers.specs.Grammar.{groups_read};
ghost use Rattle.h263_reader.specs.Described.{GroupsReady};

use bits::Place;
use fields::CountedRead;
use h263_description::predicted::predictor;
use h263_layers::macroblock::{macroblock, opened};
use h263_words::WordTables;
use size::Size;

// Whether a header with this GQUANT stands.
fn headed(gquant: u32) -> bool
    ensures { result ≡ stands gquant }
{
    if gquant == 0 {
        return false;
    }
    true
}

// The groups of a picture, each a row of macroblocks. The first refusal ends the whole picture, from inside any group.
pub fn groups(
    tables: &WordTables,
    bytes: &[u8],
    count: usize,
    at: Place,
    size: Size,
    intra: bool,
    head: &mut [u8],
    macroblocks: &mut [u8],
    levels: &mut [u8],
) -> CountedRead<()>
    requires { GroupsReady tables.now bytes.now count at size head.old macroblocks.old levels.old }
    ensures { leaving bytes.now count result (flat head.new macroblocks.new levels.new) ≡ map_read (put_groups (shape size) 0 (flat head.old macroblocks.old levels.old)) (groups_read size intra (group_numbers size) [] (bits_left bytes.now count at.bit) at) }
{
    let across = h263_description::across(size);
    let down = h263_description::down(size);
    let mut place = at;
    let mut stopped = None;
    'picture: for number in 0..down {
        let mut gquant: u32 = 0;
        for column in 0..across {
            let read = opened(
                tables,
                bytes,
                count,
                place,
                intra,
                number,
                column + 1,
                gquant,
            );
            let CountedRead::Got(found, next) = read else {
                stopped = Some(read.stopped());
                break 'picture;
            };
            let Some(mcbpc) = found.mcbpc else {
                gquant = found.gquant;
                place = next;
                continue;
            };
            let n = number * across + column;
            let predicted = predictor(macroblocks, n, column, across, headed(found.gquant));
            let sent = macroblock(
                tables,
                bytes,
                count,
                next,
                size,
                number,
                column + 1,
                predicted,
                mcbpc,
                macroblocks,
                levels,
            );
            let CountedRead::Got((), end) = sent else {
                stopped = Some(sent.stopped());
                break 'picture;
            };
            gquant = found.gquant;
            place = end;
        }
        head[5 + number] = gquant as u8;
    }
    match stopped {
        Some(stopped) => CountedRead::Refused(stopped),
        None => CountedRead::Got((), place),
    }
}
