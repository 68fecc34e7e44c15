// A macroblock: what stands at an MBA place, and what its type says follows.
ghost use Rattle.std.specs.Prelude.{◌≡◌, ◌+◌, ◌-◌, ◌*◌, ◌≤◌, ◌<◌, true, false, ◌∷◌, [], length};
ghost use Rattle.std.proofs.lemmas.List.Edits.{sets};
ghost use Rattle.bits.specs.Bits.{bits_left};
ghost use Rattle.bits.specs.Read.{judged_read};
ghost use Rattle.bits.specs.Code.{word};
ghost use Rattle.bits.specs.Answer.{Placed};
ghost use Rattle.h261_words.specs.Tables.{table1};
ghost use Rattle.h261_words.specs.Words.{is_mc, has_mquant};
ghost use Rattle.layout.specs.Flat.{byte_of};
ghost use Rattle.layout.specs.Value.{zero_vector};
ghost use Rattle.h261_description.specs.Vector.{preceding as preceding_of};
ghost use Rattle.h261_layers.specs.Answer.{Kept, KeptVector, component_of, before_of, as_mba, as_vector, as_macroblock, put_sent};
ghost use Rattle.h261_layers.specs.Ready.{Reading, Stepped, MacroblockReady};
ghost use Rattle.fields.specs.Answer.{map_read, as_number};
ghost use Rattle.h261_layers.specs.Vector.{vector_read};
ghost use Rattle.h261_layers.specs.Grammar.{mba as mba_read, mba_of, pattern_read, macroblock as macroblock_read};
ghost use Rattle.fields.specs.Rules.{optional, quantiser as quantiser_read};

use crate::block::blocks;
use crate::vector::vector;
use crate::{Behind, Mba};
use bits::{Place, Stopped};
use fields::{CountedRead, once, quantiser};
use h261_description::restarts;
use h261_groups::Format;
use h261_words::WordTables;
use h261_words::kind::{has_cbp, has_mquant, is_intra, is_mc};
use refusals::{Reason, Refusal};

// MBA or a start code.
fn mba_word(
    tables: &WordTables,
    bytes: &[u8],
    count: usize,
    at: Place,
    last: bool,
    address: usize,
) -> CountedRead<Mba>
    requires { (Reading tables.now bytes.now count at) × (address ≤ 33) }
    ensures { as_mba bytes.now count result ≡ judged_read (word table1) (mba_of last address) (bits_left bytes.now count at.bit) at }
{
    let read = once(at, h261_words::mba(tables, bytes, count, at.bit));
    let CountedRead::Got(meaning, next) = read else {
        return CountedRead::Refused(read.stopped());
    };
    if meaning == 34 {
        return CountedRead::Got(Mba::Stuffing, next);
    }
    if meaning == 35 {
        if last {
            return CountedRead::Refused(Stopped {
                refusal: Refusal {
                    reason: Reason::AfterLast,
                    place: at.bit,
                },
                reads: next.reads,
            });
        }
        return CountedRead::Got(Mba::Ended, next);
    }
    let step = meaning as usize;
    if 33 < address + step {
        return CountedRead::Refused(Stopped {
            refusal: Refusal {
                reason: Reason::AddressPast,
                place: at.bit,
            },
            reads: next.reads,
        });
    }
    CountedRead::Got(Mba::Step(step), next)
}

// In the last group, no bits left at an MBA place end the picture.
fn last_mba(
    tables: &WordTables,
    bytes: &[u8],
    count: usize,
    at: Place,
    address: usize,
) -> CountedRead<Mba>
    requires { (Reading tables.now bytes.now count at) × (address ≤ 33) }
    ensures { as_mba bytes.now count result ≡ mba_read true address (bits_left bytes.now count at.bit) at }
{
    if count <= at.bit {
        return CountedRead::Got(Mba::Ended, at);
    }
    mba_word(tables, bytes, count, at, true, address)
}

pub fn mba(
    tables: &WordTables,
    bytes: &[u8],
    count: usize,
    at: Place,
    last: bool,
    address: usize,
) -> CountedRead<Mba>
    requires { (Reading tables.now bytes.now count at) × (address ≤ 33) }
    ensures { as_mba bytes.now count result ≡ mba_read last address (bits_left bytes.now count at.bit) at }
{
    if last {
        return last_mba(tables, bytes, count, at, address);
    }
    mba_word(tables, bytes, count, at, false, address)
}

// MQUANT, where the type has it; else 0.
fn mquant(bytes: &[u8], count: usize, at: Place, mtype: u16) -> CountedRead<u32>
    requires { Placed bytes.now count at }
    ensures { as_number bytes.now count result ≡ optional (has_mquant mtype) 0 quantiser_read (bits_left bytes.now count at.bit) at }
{
    if has_mquant(mtype) {
        return quantiser(bytes, count, at);
    }
    CountedRead::Got(0, at)
}

// CBP, where the type has it; else all blocks of INTRA, and none.
fn pattern(
    tables: &WordTables,
    bytes: &[u8],
    count: usize,
    at: Place,
    mtype: u16,
) -> CountedRead<u32>
    requires { Reading tables.now bytes.now count at }
    ensures { as_number bytes.now count result ≡ pattern_read mtype (bits_left bytes.now count at.bit) at }
{
    if has_cbp(mtype) {
        return once(at, h261_words::cbp(tables, bytes, count, at.bit));
    }
    if is_intra(mtype) {
        return CountedRead::Got(63, at);
    }
    CountedRead::Got(0, at)
}

// The vector, where the type is MC; else zero.
fn moved(
    tables: &WordTables,
    bytes: &[u8],
    count: usize,
    at: Place,
    format: Format,
    number: usize,
    behind: Behind,
    step: usize,
    mtype: u16,
) -> CountedRead<(u8, u8)>
    requires { (Reading tables.now bytes.now count at) × (Stepped number behind step) }
    ensures { as_vector bytes.now count result ≡ optional (is_mc mtype) zero_vector (vector_read format number (behind.address + step) (preceding_of (before_of behind) step)) (bits_left bytes.now count at.bit) at }
{
    if is_mc(mtype) {
        let before = behind.address;
        let address = before + step;
        if restarts(before, step) {
            return vector(tables, bytes, count, at, format, number, address, 16, 16);
        }
        return vector(
            tables,
            bytes,
            count,
            at,
            format,
            number,
            address,
            behind.horizontal,
            behind.vertical,
        );
    }
    CountedRead::Got((16, 16), at)
}

// A component in a byte of two's complement.
fn component_byte(kept: u8) -> u8
    requires { Kept kept }
    ensures { result ≡ byte_of (component_of kept) }
{
    (((kept as u16) + 240) % 256) as u8
}

// The four bytes of a macroblock that is sent.
fn put_fields(
    macroblocks: &mut [u8],
    at: usize,
    mtype: u8,
    quantiser: u8,
    horizontal: u8,
    vertical: u8,
)
    requires { (at + 4 ≤ length macroblocks.old) × (KeptVector horizontal vertical) }
    ensures { macroblocks.new ≡ sets macroblocks.old at (mtype ∷ quantiser ∷ byte_of (component_of horizontal) ∷ byte_of (component_of vertical) ∷ []) }
{
    macroblocks[at] = mtype;
    macroblocks[at + 1] = quantiser;
    macroblocks[at + 2] = component_byte(horizontal);
    macroblocks[at + 3] = component_byte(vertical);
}

// The macroblock a step after what is behind, in a group that counts from 0, laid out as it is read.
pub fn macroblock(
    tables: &WordTables,
    bytes: &[u8],
    count: usize,
    at: Place,
    format: Format,
    number: usize,
    group: usize,
    behind: Behind,
    step: usize,
    macroblocks: &mut [u8],
    levels: &mut [u8],
) -> CountedRead<Behind>
    requires { (Reading tables.now bytes.now count at) × (MacroblockReady number group behind step macroblocks.old levels.old) }
    ensures { as_macroblock bytes.now count result macroblocks.new levels.new ≡ map_read (put_sent group macroblocks.old levels.old) (macroblock_read format number (before_of behind) step (bits_left bytes.now count at.bit) at) }
{
    let kind = once(at, h261_words::mtype(tables, bytes, count, at.bit));
    let CountedRead::Got(found, after_type) = kind else {
        return CountedRead::Refused(kind.stopped());
    };
    let mtype = found as u16;
    let quantised = mquant(bytes, count, after_type, mtype);
    let CountedRead::Got(quantiser, after_quantiser) = quantised else {
        return CountedRead::Refused(quantised.stopped());
    };
    let pointed = moved(
        tables,
        bytes,
        count,
        after_quantiser,
        format,
        number,
        behind,
        step,
        mtype,
    );
    let CountedRead::Got((horizontal, vertical), after_vector) = pointed else {
        return CountedRead::Refused(pointed.stopped());
    };
    let coded = pattern(tables, bytes, count, after_vector, mtype);
    let CountedRead::Got(cbp, after_pattern) = coded else {
        return CountedRead::Refused(coded.stopped());
    };
    let address = behind.address + step;
    let index = group * 33 + (address - 1);
    let intra = is_intra(mtype);
    let sent = blocks(
        tables,
        bytes,
        count,
        after_pattern,
        intra,
        cbp,
        levels,
        index * 384,
    );
    let CountedRead::Got((), next) = sent else {
        return CountedRead::Refused(sent.stopped());
    };
    put_fields(
        macroblocks,
        index * 4,
        mtype as u8,
        quantiser as u8,
        horizontal,
        vertical,
    );
    CountedRead::Got(
        Behind {
            address,
            horizontal,
            vertical,
        },
        next,
    )
}
