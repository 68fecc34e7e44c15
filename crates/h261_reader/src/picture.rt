// A picture: its groups and their macroblocks, laid out as they are read.
ghost use Rattle.std.specs.Prelude.{◌≡◌};
ghost use Rattle.bits.specs.Bits.{bits_left};
ghost use Rattle.h261_groups.specs.Format.{group_numbers};
ghost use Rattle.layout.specs.Flat.{put_groups, flat};
ghost use Rattle.fields.specs.Answer.{map_read, leaving};
ghost use Rattle.h261_description.specs.Value.{shape};
ghost use Rattle.h261_layers.specs.Ready.{Reading};
ghost use Rattle.h261_layers.specs.Grammar.{groups_read};
ghost use Rattle.layout.specs.Valid.{Lengths};

use bits::Place;
use fields::CountedRead;
use h261_groups::Format;
use h261_layers::head::group_head;
use h261_layers::macroblock::{macroblock, mba};
use h261_layers::{Behind, Mba};
use h261_words::WordTables;

// The groups of a picture from the first one's GN on. The first refusal ends the whole picture, from inside any group.
pub fn groups(
    tables: &WordTables,
    bytes: &[u8],
    count: usize,
    at: Place,
    format: Format,
    head: &mut [u8],
    macroblocks: &mut [u8],
    levels: &mut [u8],
) -> CountedRead<()>
    requires { (Reading tables.now bytes.now count at) × (Lengths (shape format) (flat head.old macroblocks.old levels.old)) }
    ensures { leaving bytes.now count result (flat head.new macroblocks.new levels.new) ≡ map_read (put_groups (shape format) 0 (flat head.old macroblocks.old levels.old)) (groups_read format (group_numbers format) (bits_left bytes.now count at.bit) at) }
{
    let all = h261_groups::order::group_count(format);
    let mut place = at;
    let mut stopped = None;
    'picture: for group in 0..all {
        let number = h261_groups::order::group_number(format, group);
        let opened = group_head(bytes, count, place, number as u32);
        let CountedRead::Got(gquant, after) = opened else {
            stopped = Some(opened.stopped());
            break 'picture;
        };
        head[3 + group] = gquant as u8;
        place = after;
        let mut behind = Behind {
            address: 0,
            horizontal: 16,
            vertical: 16,
        };
        'group: loop {
            let found = mba(
                tables,
                bytes,
                count,
                place,
                group + 1 == all,
                behind.address,
            );
            let CountedRead::Got(meant, next) = found else {
                stopped = Some(found.stopped());
                break 'picture;
            };
            match meant {
                Mba::Step(step) => {
                    let read = macroblock(
                        tables,
                        bytes,
                        count,
                        next,
                        format,
                        number,
                        group,
                        behind,
                        step,
                        macroblocks,
                        levels,
                    );
                    let CountedRead::Got(then, end) = read else {
                        stopped = Some(read.stopped());
                        break 'picture;
                    };
                    behind = then;
                    place = end;
                }
                Mba::Stuffing => {
                    place = next;
                }
                Mba::Ended => {
                    place = next;
                    break 'group;
                }
            }
        }
    }
    match stopped {
        Some(stopped) => CountedRead::Refused(stopped),
        None => CountedRead::Got((), place),
    }
}
