// The group layer: a row of macroblocks, with a header or without.
ghost use Rattle.std.specs.Prelude.{◌≡◌, ◌≤◌};
ghost use Rattle.bits.specs.Appended.{WroteBits, CountablePlace};
ghost use Rattle.h263_description.specs.Fields.{stands};
ghost use Rattle.h263_writer.specs.Write.{head_of};
ghost use Rattle.h263_writer.specs.Sound.{row_bits, group_bits};
ghost use Rattle.h263_writer.specs.Asked.{RowAsked, GroupAsked};

use crate::macroblock;
use h263_words::WordTables;

// Whether a header stands.
fn headed(gquant: u8) -> bool
    ensures { result ≡ stands gquant }
{
    if gquant == 0 {
        return false;
    }
    true
}

// The macroblocks of row `number`: COD 1 for each that isn't sent.
fn row(
    tables: &WordTables,
    macroblocks: &[u8],
    levels: &[u8],
    number: usize,
    across: usize,
    gquant: u8,
    intra: bool,
    out: &mut [u8],
    at: usize,
) -> usize
    requires { RowAsked tables.now macroblocks.now levels.now across number gquant intra at }
    ensures { WroteBits (row_bits across intra gquant number macroblocks.now levels.now) out.old at out.new result }
{
    let first = number * across;
    let under = headed(gquant);
    let mut place = at;
    for k in 0..across {
        let n = first + k;
        let a = n * 4;
        let b = n * 384;
        if macroblocks[a] == 0 {
            place = bits::append(out, place, 1, 1);
            continue;
        }
        place = macroblock::macroblock(
            tables,
            macroblocks,
            &levels[b..b + 384],
            n,
            k,
            across,
            intra,
            under,
            out,
            place,
        );
    }
    place
}

// GBSC, GN, GFID 0, GQUANT, where the header stands.
fn header(number: usize, gquant: u8, out: &mut [u8], at: usize) -> usize
    requires { (number ≤ 31) × (gquant ≤ 31) × (CountablePlace at (head_of number gquant)) }
    ensures { WroteBits (head_of number gquant) out.old at out.new result }
{
    if !headed(gquant) {
        return at;
    }
    let started = bits::append(out, at, 17, 1);
    let numbered = bits::append(out, started, 5, number as u32);
    let framed = bits::append(out, numbered, 2, 0);
    bits::append(out, framed, 5, gquant as u32)
}

// The header, where it stands, and the macroblocks of group `number`.
pub fn group(
    tables: &WordTables,
    macroblocks: &[u8],
    levels: &[u8],
    number: usize,
    across: usize,
    gquant: u8,
    intra: bool,
    out: &mut [u8],
    at: usize,
) -> usize
    requires { GroupAsked tables.now macroblocks.now levels.now across number gquant intra at }
    ensures { WroteBits (group_bits across intra gquant number macroblocks.now levels.now) out.old at out.new result }
{
    let ready = header(number, gquant, out, at);
    row(
        tables,
        macroblocks,
        levels,
        number,
        across,
        gquant,
        intra,
        out,
        ready,
    )
}
