// The headers of a picture and of a group: rows of fields under their rules.
ghost use Rattle.std.specs.Prelude.{◌≡◌, ◌<◌};
ghost use Rattle.bits.specs.Bits.{bits_left};
ghost use Rattle.bits.specs.Answer.{Placed};
ghost use Rattle.fields.specs.Answer.{as_number, place_of};
ghost use Rattle.fields.specs.Header.{Below};
ghost use Rattle.h261_layers.specs.Answer.{Counted, header_of, as_header};
ghost use Rattle.h261_layers.specs.Grammar.{group_head, header as header_read};

use bit_reader::BitReader;
use bits::{FieldRead, Place, Stopped};
use fields::{CountedRead, drop_spares, expect, field_stopped, plain_spares, quantiser, spares};
use h261_groups::Format;
use refusals::{Reason, Refusal};

// GN, GQUANT and the spares of a group: its GQUANT.
pub fn group_head(bytes: &[u8], count: usize, at: Place, number: u32) -> CountedRead<u32>
    requires { Placed bytes.now count at }
    ensures { as_number bytes.now count result ≡ group_head number (bits_left bytes.now count at.bit) at }
{
    let named = expect(bytes, count, at, 4, number, Reason::OtherGroup);
    let CountedRead::Got((), after_number) = named else {
        return CountedRead::Refused(named.stopped());
    };
    let quantised = quantiser(bytes, count, after_number);
    let CountedRead::Got(gquant, after_quantiser) = quantised else {
        return CountedRead::Refused(quantised.stopped());
    };
    let dropped = spares(bytes, count, after_quantiser);
    let CountedRead::Got((), next) = dropped else {
        return CountedRead::Refused(dropped.stopped());
    };
    CountedRead::Got(gquant, next)
}

// What the reads of a picture's header come to: the first that was refused or is against its rule; else TR and PTYPE bits 1 to 3. PSC, TR and PTYPE
// are the first three reads, and GBSC is one read more than the spares came to.
fn header_of(
    format: Format,
    at: usize,
    psc: FieldRead<u32>,
    tr: FieldRead<u32>,
    ptype: FieldRead<u32>,
    spare: CountedRead<()>,
    gbsc: FieldRead<u32>,
) -> CountedRead<(u8, u8)>
    requires { (Below 32 tr) × (Below 64 ptype) × (Counted spare) }
    ensures { result ≡ header_of format at psc tr ptype spare gbsc }
{
    let FieldRead::Got(start, _) = psc else {
        return CountedRead::Refused(field_stopped(1, psc));
    };
    if start != 16 {
        return CountedRead::Refused(Stopped {
            refusal: Refusal {
                reason: Reason::NoStartCode,
                place: at,
            },
            reads: 1,
        });
    }
    let FieldRead::Got(reference, at_ptype) = tr else {
        return CountedRead::Refused(field_stopped(2, tr));
    };
    let FieldRead::Got(information, _) = ptype else {
        return CountedRead::Refused(field_stopped(3, ptype));
    };
    let wanted = h261_groups::bit(format) as u32;
    if information / 4 % 2 != wanted {
        return CountedRead::Refused(Stopped {
            refusal: Refusal {
                reason: Reason::OtherFormat,
                place: at_ptype,
            },
            reads: 3,
        });
    }
    if information / 2 % 2 == 0 {
        return CountedRead::Refused(Stopped {
            refusal: Refusal {
                reason: Reason::OtherFormat,
                place: at_ptype,
            },
            reads: 3,
        });
    }
    let CountedRead::Got((), at_gbsc) = spare else {
        return CountedRead::Refused(spare.stopped());
    };
    let reads = at_gbsc.reads + 1;
    let FieldRead::Got(group, next) = gbsc else {
        return CountedRead::Refused(field_stopped(reads, gbsc));
    };
    if group != 1 {
        return CountedRead::Refused(Stopped {
            refusal: Refusal {
                reason: Reason::NoStartCode,
                place: at_gbsc.bit,
            },
            reads,
        });
    }
    CountedRead::Got(
        (reference as u8, (information / 8) as u8),
        Place { bit: next, reads },
    )
}

// A picture's header, PSC, TR, PTYPE, the spares and the first GBSC, read by a bit reader: TR and PTYPE bits 1 to 3. No read was made before it.
pub fn header(bytes: &[u8], count: usize, at: usize, format: Format) -> CountedRead<(u8, u8)>
    requires { Placed bytes.now count (place_of at 0) }
    ensures { as_header bytes.now count result ≡ header_read format (bits_left bytes.now count at) (place_of at 0) }
{
    let at_start = BitReader::new(bytes, count, at);
    let psc = at_start.field(20);
    let at_tr = at_start.after(psc);
    let tr = at_tr.field(5);
    let at_ptype = at_tr.after(tr);
    let ptype = at_ptype.field(6);
    let at_spares = at_ptype.after(ptype);
    let spare = drop_spares(at_spares, 3);
    let dropped = plain_spares(spare);
    let at_gbsc = at_spares.after(dropped);
    let gbsc = at_gbsc.field(16);
    header_of(format, at, psc, tr, ptype, spare, gbsc)
}
