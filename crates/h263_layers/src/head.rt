// The headers of a picture and of a group: rows of fields under their rules.
ghost use Rattle.std.specs.Prelude.{◌≡◌};
ghost use Rattle.bits.specs.Bits.{bits_left};
ghost use Rattle.bits.specs.Answer.{Placed};
ghost use Rattle.fields.specs.Answer.{as_number, place_of};
ghost use Rattle.h263_layers.specs.Answer.{HeaderAsked, against_at, header_of, as_header};
ghost use Rattle.h263_layers.specs.Grammar.{head_fields, group_head, mode_bit, header as header_read};

use crate::Header;
use crate::start::{Ahead, ahead_at};
use bit_reader::BitReader;
use bits::{FieldRead, Place, Stopped, field};
use fields::{CountedRead, drop_spares, expect, field_stopped, once, quantiser};
use refusals::{Reason, Refusal};
use size::Size;

// GBSC, GN, GFID and GQUANT of a group: its GQUANT.
fn head_fields(bytes: &[u8], count: usize, at: Place, number: u32) -> CountedRead<u32>
    requires { Placed bytes.now count at }
    ensures { as_number bytes.now count result ≡ head_fields number (bits_left bytes.now count at.bit) at }
{
    let started = once(at, field(bytes, count, at.bit, 17));
    let CountedRead::Got(_, after_start) = started else {
        return CountedRead::Refused(started.stopped());
    };
    let named = expect(bytes, count, after_start, 5, number, Reason::OtherGroup);
    let CountedRead::Got((), after_number) = named else {
        return CountedRead::Refused(named.stopped());
    };
    let framed = once(after_number, field(bytes, count, after_number.bit, 2));
    let CountedRead::Got(_, after_frame) = framed else {
        return CountedRead::Refused(framed.stopped());
    };
    quantiser(bytes, count, after_frame)
}

// GSTUF, where it stands, and the header of a group: its GQUANT, 0 where no start code stands.
pub fn group_head(bytes: &[u8], count: usize, at: Place, number: u32) -> CountedRead<u32>
    requires { Placed bytes.now count at }
    ensures { as_number bytes.now count result ≡ group_head number (bits_left bytes.now count at.bit) at }
{
    match ahead_at(bytes, count, at.bit) {
        Ahead::Absent => CountedRead::Got(0, at),
        Ahead::CutOff => CountedRead::Refused(Stopped {
            refusal: Refusal {
                reason: Reason::BitsEnd,
                place: at.bit,
            },
            reads: at.reads + 1,
        }),
        Ahead::Stands(gstuf) => {
            if gstuf == 0 {
                return head_fields(bytes, count, at, number);
            }
            let dropped = once(at, field(bytes, count, at.bit, gstuf));
            let CountedRead::Got(_, after) = dropped else {
                return CountedRead::Refused(dropped.stopped());
            };
            head_fields(bytes, count, after, number)
        }
    }
}

// A refusal of a field against its rule.
fn against(reason: Reason, place: usize, reads: usize) -> CountedRead<Header>
    ensures { result ≡ against_at reason place reads }
{
    CountedRead::Refused(Stopped {
        refusal: Refusal { reason, place },
        reads,
    })
}

// Of PTYPE bits 10 to 13 the first that is set, from PTYPE's first bit on.
fn mode_bit(information: u32) -> usize
    ensures { result ≡ mode_bit information }
{
    if information / 8 % 2 == 1 {
        return 9;
    }
    if information / 4 % 2 == 1 {
        return 10;
    }
    if information / 2 % 2 == 1 {
        return 11;
    }
    12
}

// What the reads of a picture's header come to: the first that was refused or is against its rule; else what it says. PSC, TR, PTYPE, PQUANT and
// CPM are the first five reads.
fn header_of(
    size: Size,
    at: usize,
    psc: FieldRead<u32>,
    tr: FieldRead<u32>,
    ptype: FieldRead<u32>,
    pquant: FieldRead<u32>,
    cpm: FieldRead<u32>,
    spare: CountedRead<()>,
) -> CountedRead<Header>
    requires { HeaderAsked tr ptype pquant }
    ensures { result ≡ header_of size at psc tr ptype pquant cpm spare }
{
    let FieldRead::Got(start, _) = psc else {
        return CountedRead::Refused(field_stopped(1, psc));
    };
    if start != 32 {
        return against(Reason::NoStartCode, at, 1);
    }
    let FieldRead::Got(reference, at_ptype) = tr else {
        return CountedRead::Refused(field_stopped(2, tr));
    };
    let FieldRead::Got(information, at_pquant) = ptype else {
        return CountedRead::Refused(field_stopped(3, ptype));
    };
    if information / 2048 != 2 {
        return against(Reason::OtherFormat, at_ptype, 3);
    }
    if information / 32 % 8 != h263_description::format_code(size) {
        return against(Reason::OtherFormat, at_ptype, 3);
    }
    if information % 16 != 0 {
        return against(Reason::OptionalMode, at_ptype + mode_bit(information), 3);
    }
    let FieldRead::Got(quantised, at_cpm) = pquant else {
        return CountedRead::Refused(field_stopped(4, pquant));
    };
    if quantised == 0 {
        return against(Reason::QuantiserZero, at_pquant, 4);
    }
    let FieldRead::Got(multipoint, _) = cpm else {
        return CountedRead::Refused(field_stopped(5, cpm));
    };
    if multipoint != 0 {
        return against(Reason::OptionalMode, at_cpm, 5);
    }
    let CountedRead::Got((), next) = spare else {
        return CountedRead::Refused(spare.stopped());
    };
    let said = Header {
        tr: reference as u8,
        ptype: (information / 256 % 8) as u8,
        kind: (information / 16 % 2) as u8,
        pquant: quantised as u8,
    };
    CountedRead::Got(said, next)
}

// A picture's header, PSC, TR, PTYPE, PQUANT, CPM and the spares, read by a bit reader. No read was made before it.
pub fn header(bytes: &[u8], count: usize, at: usize, size: Size) -> CountedRead<Header>
    requires { Placed bytes.now count (place_of at 0) }
    ensures { as_header bytes.now count result ≡ header_read size (bits_left bytes.now count at) (place_of at 0) }
{
    let at_start = BitReader::new(bytes, count, at);
    let psc = at_start.field(22);
    let at_tr = at_start.after(psc);
    let tr = at_tr.field(8);
    let at_ptype = at_tr.after(tr);
    let ptype = at_ptype.field(13);
    let at_pquant = at_ptype.after(ptype);
    let pquant = at_pquant.field(5);
    let at_cpm = at_pquant.after(pquant);
    let cpm = at_cpm.field(1);
    let at_spares = at_cpm.after(cpm);
    let spare = drop_spares(at_spares, 5);
    header_of(size, at, psc, tr, ptype, pquant, cpm, spare)
}
