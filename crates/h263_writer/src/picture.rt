// The picture layer.
ghost use Rattle.std.specs.Prelude.{T};
ghost use Rattle.bits.specs.Appended.{WroteBits};
ghost use Rattle.layout.specs.Flat.{flat};
ghost use Rattle.h263_words.specs.Lookup.{Tables};
ghost use Rattle.h263_description.specs.Valid.{valid as is_valid};
ghost use Rattle.h263_writer.specs.Sound.{groups_bits};
ghost use Rattle.h263_writer.specs.Write.{picture_bits};
ghost use Rattle.h263_writer.specs.Asked.{GroupsAsked};

use crate::group;
use h263_words::WordTables;
use size::Size;

// All groups, in order: each a row of so many macroblocks.
fn groups(
    tables: &WordTables,
    head: &[u8],
    macroblocks: &[u8],
    levels: &[u8],
    across: usize,
    down: usize,
    intra: bool,
    out: &mut [u8],
    at: usize,
) -> usize
    requires { GroupsAsked tables.now head.now macroblocks.now levels.now across down intra at }
    ensures { WroteBits (groups_bits across down intra head.now macroblocks.now levels.now) out.old at out.new result }
{
    let mut place = at;
    for g in 0..down {
        let gquant = head[g + 5];
        place = group::group(
            tables,
            macroblocks,
            levels,
            g,
            across,
            gquant,
            intra,
            out,
            place,
        );
    }
    place
}

// PSC, TR, PTYPE, PQUANT, CPM 0, PEI 0, and the groups, from the output's first bit on.
pub fn picture(
    tables: &WordTables,
    head: &[u8],
    macroblocks: &[u8],
    levels: &[u8],
    size: Size,
    out: &mut [u8],
) -> usize
    requires { (Tables tables.now) × (T (is_valid size (flat head.now macroblocks.now levels.now))) }
    ensures { WroteBits (picture_bits size (flat head.now macroblocks.now levels.now)) out.old 0 out.new result }
{
    let started = bits::append(out, 0, 22, 32);
    let numbered = bits::append(out, started, 8, head[0] as u32);
    let kind = 4096
        + (head[1] as u32) * 256
        + h263_description::format_code(size) * 32
        + (head[3] as u32) * 16;
    let typed = bits::append(out, numbered, 13, kind);
    let quantised = bits::append(out, typed, 5, head[4] as u32);
    let single = bits::append(out, quantised, 1, 0);
    let ready = bits::append(out, single, 1, 0);
    let across = h263_description::across(size);
    let down = h263_description::down(size);
    groups(
        tables,
        head,
        macroblocks,
        levels,
        across,
        down,
        head[3] == 0,
        out,
        ready,
    )
}
