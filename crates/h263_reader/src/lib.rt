// A picture's bits to its description, or the refusal: the picture and its groups, over the layers below.
#![tactic(auto)]

ghost use Rattle.std.specs.Prelude.{◌≡◌, length};
ghost use Rattle.refusals.specs.Told.{told_verdict, verdict_on, found_or};
ghost use Rattle.bits.specs.Bits.{bits_left};
ghost use Rattle.bits.specs.Answer.{Placed};
ghost use Rattle.fields.specs.Answer.{found, map_read, leaving};
ghost use Rattle.layout.specs.Flat.{flat, zeros};
ghost use Rattle.h263_description.specs.Value.{shape, laid_picture};
ghost use Rattle.h263_layers.specs.Answer.{header_in};
ghost use Rattle.h263_layers.specs.Grammar.{read_widths};
ghost use Rattle.h263_reader.specs.Described.{after_header, ended_at, described};

use bits::{Place, Stopped};
use fields::{CountedRead, PictureRead, count_above, refused_picture};
use h263_layers::Header;
use h263_layers::head::header;
use levels::clear;
use refusals::{Reason, Refusal};
use size::Size;

mod picture;

// Bits that are left after the last macroblock are 13, whatever they are. Looking for them is no read.
fn ended(read: CountedRead<()>, count: usize) -> CountedRead<()>
    ensures { result ≡ ended_at count read }
{
    let CountedRead::Got((), end) = read else {
        return read;
    };
    if end.bit < count {
        return CountedRead::Refused(Stopped {
            refusal: Refusal {
                reason: Reason::AfterLast,
                place: end.bit,
            },
            reads: end.reads,
        });
    }
    CountedRead::Got((), end)
}

// The picture from after its header on, laid out: what the header says, and the groups, after which the bits end.
fn laid(
    bytes: &[u8],
    count: usize,
    said: Header,
    at: Place,
    size: Size,
    head: &mut [u8],
    macroblocks: &mut [u8],
    levels: &mut [u8],
) -> CountedRead<()>
    requires { (Placed bytes.now count at) × (flat head.old macroblocks.old levels.old ≡ zeros (shape size)) }
    ensures { leaving bytes.now count result (flat head.new macroblocks.new levels.new) ≡ map_read (laid_picture size) (after_header size (header_in said) (bits_left bytes.now count at.bit) at) }
{
    head[0] = said.tr;
    head[1] = said.ptype;
    head[2] = h263_description::format_number(size);
    head[3] = said.kind;
    head[4] = said.pquant;
    let tables = h263_words::tables();
    let read = picture::groups(
        &tables,
        bytes,
        count,
        at,
        size,
        said.kind == 0,
        head,
        macroblocks,
        levels,
    );
    ended(read, count)
}

// The verdict of the rules, and how many fields and codewords were read. The buffers are lent as zeros in the size's lengths: on acceptance they hold the description,
// on a refusal zeros.
pub fn parse_counted(
    bytes: &[u8],
    count: usize,
    size: Size,
    head: &mut [u8],
    macroblocks: &mut [u8],
    levels: &mut [u8],
) -> PictureRead
    requires { flat head.old macroblocks.old levels.old ≡ zeros (shape size) }
    ensures verdict { told_verdict result.verdict ≡ verdict_on (found (described size bytes.now count)) }
    ensures buffers { flat head.new macroblocks.new levels.new ≡ found_or (zeros (shape size)) (found (described size bytes.now count)) }
    ensures reads { result.reads ≡ length (read_widths size bytes.now count) }
{
    if count_above(bytes.len(), count, size::limit(size)) {
        return PictureRead {
            verdict: Err(Refusal {
                reason: Reason::Count,
                place: 0,
            }),
            reads: 0,
        };
    }
    let opened = header(bytes, count, 0, size);
    match opened {
        CountedRead::Refused(stopped) => refused_picture(stopped),
        CountedRead::Got(said, next) => {
            let read = laid(bytes, count, said, next, size, head, macroblocks, levels);
            let CountedRead::Got((), end) = read else {
                clear(head);
                clear(macroblocks);
                clear(levels);
                return refused_picture(read.stopped());
            };
            PictureRead {
                verdict: Ok(()),
                reads: end.reads,
            }
        }
    }
}
