// The picture layer.
ghost use Rattle.std.specs.Prelude.{T, drop};
ghost use Rattle.bits.specs.Appended.{WroteBits};
ghost use Rattle.h261_groups.specs.Format.{group_numbers};
ghost use Rattle.h261_words.specs.Lookup.{Tables};
ghost use Rattle.layout.specs.Flat.{groups_in, flat};
ghost use Rattle.h261_description.specs.Valid.{valid as is_valid};
ghost use Rattle.h261_writer.specs.Write.{groups_of, picture_bits};
ghost use Rattle.h261_writer.specs.Asked.{GroupsAsked};

use crate::group;
use h261_groups::Format;
use h261_words::WordTables;

fn groups(
    tables: &WordTables,
    head: &[u8],
    macroblocks: &[u8],
    levels: &[u8],
    format: Format,
    out: &mut [u8],
    at: usize,
) -> usize
    requires { GroupsAsked tables.now format head.now macroblocks.now levels.now at }
    ensures { WroteBits (groups_of (group_numbers format) (groups_in 33 (drop 3 head.now) macroblocks.now levels.now)) out.old at out.new result }
{
    let count = h261_groups::order::group_count(format);
    let mut place = at;
    for g in 0..count {
        let number = h261_groups::order::group_number(format, g);
        let a = g * 132;
        let b = g * 12672;
        let gquant = head[g + 3];
        place = group::group(
            tables,
            number,
            gquant,
            &macroblocks[a..],
            &levels[b..],
            out,
            place,
        );
    }
    place
}

// PSC, TR, PTYPE, PEI 0, and the groups, from the output's first bit on.
pub fn picture(
    tables: &WordTables,
    head: &[u8],
    macroblocks: &[u8],
    levels: &[u8],
    format: Format,
    out: &mut [u8],
) -> usize
    requires { (Tables tables.now) × (T (is_valid format (flat head.now macroblocks.now levels.now))) }
    ensures { WroteBits (picture_bits format (flat head.now macroblocks.now levels.now)) out.old 0 out.new result }
{
    let started = bits::append(out, 0, 20, 16);
    let numbered = bits::append(out, started, 5, head[0] as u32);
    let kind = (head[1] as u32) * 8 + (h261_groups::bit(format) as u32) * 4 + 3;
    let typed = bits::append(out, numbered, 6, kind);
    let ready = bits::append(out, typed, 1, 0);
    groups(tables, head, macroblocks, levels, format, out, ready)
}
