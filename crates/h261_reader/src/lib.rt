// A picture's bits to its description, or the refusal: the picture and its groups, over the layers below.
#![tactic(auto)]

ghost use Rattle.std.specs.Prelude.{◌≡◌, length};
ghost use Rattle.refusals.specs.Told.{told_verdict, verdict_on, found_or};
ghost use Rattle.fields.specs.Answer.{found};
ghost use Rattle.layout.specs.Flat.{flat, zeros};
ghost use Rattle.h261_description.specs.Value.{shape};
ghost use Rattle.h261_layers.specs.Grammar.{read_widths};
ghost use Rattle.h261_reader.specs.Described.{described};

use fields::{CountedRead, PictureRead, count_above, refused_picture};
use h261_groups::Format;
use h261_layers::head::header;
use levels::clear;
use refusals::{Reason, Refusal};

mod picture;

// The verdict of the rules, and how many fields and codewords were read. The buffers are lent as zeros in the format's lengths: on acceptance they hold the description,
// on a refusal zeros.
pub fn parse_counted(
    bytes: &[u8],
    count: usize,
    format: Format,
    head: &mut [u8],
    macroblocks: &mut [u8],
    levels: &mut [u8],
) -> PictureRead
    requires { flat head.old macroblocks.old levels.old ≡ zeros (shape format) }
    ensures verdict { told_verdict result.verdict ≡ verdict_on (found (described format bytes.now count)) }
    ensures buffers { flat head.new macroblocks.new levels.new ≡ found_or (zeros (shape format)) (found (described format bytes.now count)) }
    ensures reads { result.reads ≡ length (read_widths format bytes.now count) }
{
    if count_above(bytes.len(), count, h261_groups::limit(format)) {
        return PictureRead {
            verdict: Err(Refusal {
                reason: Reason::Count,
                place: 0,
            }),
            reads: 0,
        };
    }
    let opened = header(bytes, count, 0, format);
    let CountedRead::Got((tr, ptype), next) = opened else {
        return refused_picture(opened.stopped());
    };
    head[0] = tr;
    head[1] = ptype;
    head[2] = h261_groups::bit(format);
    let tables = h261_words::tables();
    let read = picture::groups(
        &tables,
        bytes,
        count,
        next,
        format,
        head,
        macroblocks,
        levels,
    );
    let CountedRead::Got((), end) = read else {
        clear(head);
        clear(macroblocks);
        clear(levels);
        return refused_picture(read.stopped());
    };
    PictureRead {
        verdict: Ok(()),
        reads: end.reads,
    }
}
