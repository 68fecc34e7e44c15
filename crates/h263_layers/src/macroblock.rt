// A macroblock: what stands where it is to begin, and what its type says follows.
ghost use Rattle.std.specs.Prelude.{◌≡◌, ◌+◌, ◌*◌, ◌≤◌, ◌∷◌, []};
ghost use Rattle.std.proofs.lemmas.List.Edits.{sets};
ghost use Rattle.bits.specs.Bits.{bits_left};
ghost use Rattle.bits.specs.Read.{judged_read};
ghost use Rattle.bits.specs.Code.{word};
ghost use Rattle.bits.specs.Answer.{Placed};
ghost use Rattle.fields.specs.Answer.{map_read, as_number, leaving};
ghost use Rattle.fields.specs.Rules.{optional};
ghost use Rattle.size.specs.Place.{macroblocks_across};
ghost use Rattle.layout.specs.Value.{zero_vector};
ghost use Rattle.layout.specs.Flat.{byte_of};
ghost use Rattle.h263_words.specs.Tables.{mcbpc_of};
ghost use Rattle.h263_words.specs.Words.{is_inter, has_dquant, chroma_in, turned};
ghost use Rattle.h263_description.specs.Landing.{component_of};
ghost use Rattle.h263_layers.specs.Answer.{vector_kept, as_vector, as_found, as_opened, sent_in, put_sent};
ghost use Rattle.h263_layers.specs.Ready.{Reading, VectorReady, FieldsReady, MacroblockReady};
ghost use Rattle.h263_layers.specs.Vector.{vector_read};
ghost use Rattle.h263_layers.specs.Grammar.{found_of, found_read, group_head, may_stand, dquant_read, opened as opened_read, macroblock as macroblock_read};

use crate::block::blocks;
use crate::head::group_head;
use crate::vector::vector;
use crate::{Found, Opened};
use bits::{Place, Stopped, field};
use fields::{CountedRead, once};
use h263_description::kind::{has_dquant, is_inter, is_intra};
use h263_description::predicted::Kept;
use h263_words::WordTables;
use refusals::{Reason, Refusal, Table};
use size::Size;

// MCBPC. An INTER4V word is no word here.
fn kind_found(
    tables: &WordTables,
    bytes: &[u8],
    count: usize,
    at: Place,
    intra: bool,
) -> CountedRead<Found>
    requires { Reading tables.now bytes.now count at }
    ensures { as_found bytes.now count result ≡ judged_read (word (mcbpc_of intra)) found_of (bits_left bytes.now count at.bit) at }
{
    let read = once(at, h263_words::mcbpc(tables, bytes, count, at.bit, intra));
    let CountedRead::Got(kind, next) = read else {
        return CountedRead::Refused(read.stopped());
    };
    if kind == 24 {
        return CountedRead::Got(Found::Stuffing, next);
    }
    if kind / 4 == 5 {
        return CountedRead::Refused(Stopped {
            refusal: Refusal {
                reason: Reason::NoCodeword(Table::McbpcInter),
                place: at.bit,
            },
            reads: next.reads,
        });
    }
    CountedRead::Got(Found::Macroblock(Some(kind)), next)
}

// COD in an INTER picture, and MCBPC.
fn found(
    tables: &WordTables,
    bytes: &[u8],
    count: usize,
    at: Place,
    intra: bool,
) -> CountedRead<Found>
    requires { Reading tables.now bytes.now count at }
    ensures { as_found bytes.now count result ≡ found_read intra (bits_left bytes.now count at.bit) at }
{
    if intra {
        return kind_found(tables, bytes, count, at, true);
    }
    let read = once(at, field(bytes, count, at.bit, 1));
    let CountedRead::Got(cod, next) = read else {
        return CountedRead::Refused(read.stopped());
    };
    if cod == 1 {
        return CountedRead::Got(Found::Macroblock(None), next);
    }
    kind_found(tables, bytes, count, next, false)
}

// Whether a header may stand before the macroblock at an address of a group, if its GQUANT is this so far.
fn may_stand(number: usize, address: usize, gquant: u32) -> bool
    ensures { result ≡ may_stand number address gquant }
{
    if number == 0 {
        return false;
    }
    if address != 1 {
        return false;
    }
    gquant == 0
}

// The header of the macroblock's group, where one may stand: its GQUANT, or the one that it had.
fn headed(
    bytes: &[u8],
    count: usize,
    at: Place,
    number: usize,
    address: usize,
    gquant: u32,
) -> CountedRead<u32>
    requires { (Placed bytes.now count at) × (number ≤ 31) }
    ensures { as_number bytes.now count result ≡ optional (may_stand number address gquant) gquant (group_head number) (bits_left bytes.now count at.bit) at }
{
    if may_stand(number, address, gquant) {
        return group_head(bytes, count, at, number as u32);
    }
    CountedRead::Got(gquant, at)
}

// The macroblock at an address, after its group's header, where one stands, and stuffing.
pub fn opened(
    tables: &WordTables,
    bytes: &[u8],
    count: usize,
    at: Place,
    intra: bool,
    number: usize,
    address: usize,
    gquant: u32,
) -> CountedRead<Opened>
    requires { (Reading tables.now bytes.now count at) × (number ≤ 31) }
    ensures { as_opened bytes.now count result ≡ opened_read intra number address gquant (bits_left bytes.now count at.bit) at }
{
    let mut place = at;
    let mut standing = gquant;
    // No plainer as a `for`: nothing is counted, and each turn begins where stuffing ended.
    loop {
        let head = headed(bytes, count, place, number, address, standing);
        let CountedRead::Got(quantiser, after) = head else {
            return CountedRead::Refused(head.stopped());
        };
        standing = quantiser;
        let read = found(tables, bytes, count, after, intra);
        let CountedRead::Got(what, next) = read else {
            return CountedRead::Refused(read.stopped());
        };
        match what {
            Found::Stuffing => {
                place = next;
            }
            Found::Macroblock(mcbpc) => {
                let opened = Opened {
                    gquant: standing,
                    mcbpc,
                };
                return CountedRead::Got(opened, next);
            }
        }
    }
}

// DQUANT: the difference, in a byte of two's complement.
fn difference(bytes: &[u8], count: usize, at: Place) -> CountedRead<u32>
    requires { Placed bytes.now count at }
    ensures { as_number bytes.now count result ≡ dquant_read (bits_left bytes.now count at.bit) at }
{
    let read = once(at, field(bytes, count, at.bit, 2));
    let CountedRead::Got(code, next) = read else {
        return CountedRead::Refused(read.stopped());
    };
    let size = code % 2 + 1;
    if code < 2 {
        return CountedRead::Got(256 - size, next);
    }
    CountedRead::Got(size, next)
}

// DQUANT, where the type has it; else 0.
fn dquant(bytes: &[u8], count: usize, at: Place, kind: u8) -> CountedRead<u32>
    requires { Placed bytes.now count at }
    ensures { as_number bytes.now count result ≡ optional (has_dquant kind) 0 dquant_read (bits_left bytes.now count at.bit) at }
{
    if has_dquant(kind) {
        return difference(bytes, count, at);
    }
    CountedRead::Got(0, at)
}

// The vector, where the type is INTER; else zero, kept as 32.
fn moved(
    tables: &WordTables,
    bytes: &[u8],
    count: usize,
    at: Place,
    size: Size,
    number: usize,
    address: usize,
    predicted: Kept,
    kind: u8,
) -> CountedRead<(u8, u8)>
    requires { (Reading tables.now bytes.now count at) × (VectorReady size number address predicted) }
    ensures { as_vector bytes.now count result ≡ optional (is_inter kind) zero_vector (vector_read size number address (vector_kept predicted)) (bits_left bytes.now count at.bit) at }
{
    if is_inter(kind) {
        return vector(tables, bytes, count, at, size, number, address, predicted);
    }
    CountedRead::Got((32, 32), at)
}

// CBPY's four bits, turned unless the macroblock is INTRA, then CBPC's two.
fn pattern(intra: bool, luminance: u32, kind: u32) -> u32
    requires { luminance ≤ 15 }
    ensures { result ≡ turned intra luminance * 4 + chroma_in kind }
{
    if intra {
        return luminance * 4 + kind % 4;
    }
    (15 - luminance) * 4 + kind % 4
}

// A component in a byte of two's complement.
fn component_byte(kept: u8) -> u8
    requires { kept ≤ 63 }
    ensures { result ≡ byte_of (component_of kept) }
{
    (((kept as u16) + 224) % 256) as u8
}

// The four bytes of a macroblock that is sent.
fn put_fields(macroblocks: &mut [u8], at: usize, kind: u8, dquant: u8, horizontal: u8, vertical: u8)
    requires { FieldsReady macroblocks.old at horizontal vertical }
    ensures { macroblocks.new ≡ sets macroblocks.old at (kind ∷ dquant ∷ byte_of (component_of horizontal) ∷ byte_of (component_of vertical) ∷ []) }
{
    macroblocks[at] = kind;
    macroblocks[at + 1] = dquant;
    macroblocks[at + 2] = component_byte(horizontal);
    macroblocks[at + 3] = component_byte(vertical);
}

// The macroblock at an address of a group, with this MCBPC, laid out as it is read.
pub fn macroblock(
    tables: &WordTables,
    bytes: &[u8],
    count: usize,
    at: Place,
    size: Size,
    number: usize,
    address: usize,
    predicted: Kept,
    mcbpc: u32,
    macroblocks: &mut [u8],
    levels: &mut [u8],
) -> CountedRead<()>
    requires { (Reading tables.now bytes.now count at) × (MacroblockReady size number address predicted mcbpc macroblocks.old levels.old) }
    ensures { leaving bytes.now count result (sent_in macroblocks.new levels.new) ≡ map_read (put_sent (macroblocks_across size) number macroblocks.old levels.old) (macroblock_read size number address (vector_kept predicted) mcbpc (bits_left bytes.now count at.bit) at) }
{
    let coded = once(at, h263_words::cbpy(tables, bytes, count, at.bit));
    let CountedRead::Got(luminance, after_pattern) = coded else {
        return CountedRead::Refused(coded.stopped());
    };
    let kind = (mcbpc / 4) as u8;
    let quantised = dquant(bytes, count, after_pattern, kind);
    let CountedRead::Got(changed, after_quantiser) = quantised else {
        return CountedRead::Refused(quantised.stopped());
    };
    let pointed = moved(
        tables,
        bytes,
        count,
        after_quantiser,
        size,
        number,
        address,
        predicted,
        kind,
    );
    let CountedRead::Got((horizontal, vertical), after_vector) = pointed else {
        return CountedRead::Refused(pointed.stopped());
    };
    let intra = is_intra(kind);
    let index = number * h263_description::across(size) + (address - 1);
    let sent = blocks(
        tables,
        bytes,
        count,
        after_vector,
        intra,
        pattern(intra, luminance, mcbpc),
        levels,
        index * 384,
    );
    let CountedRead::Got((), next) = sent else {
        return CountedRead::Refused(sent.stopped());
    };
    put_fields(
        macroblocks,
        index * 4,
        kind,
        changed as u8,
        horizontal,
        vertical,
    );
    CountedRead::Got((), next)
}
