// The macroblock layer.
ghost use Rattle.std.specs.Prelude.{◌≡◌, ◌+◌, ◌≤◌, T};
ghost use Rattle.laws.specs.Choice.{pick};
ghost use Rattle.bits.specs.Bits.{bits_of};
ghost use Rattle.bits.specs.Write.{bits_if};
ghost use Rattle.bits.specs.Appended.{WroteBits, CountablePlace};
ghost use Rattle.layout.specs.Numbers.{is_zero};
ghost use Rattle.h263_words.specs.Words.{has_dquant, is_dquant, dquant_field as field_of, turned as turned_of};
ghost use Rattle.h263_description.specs.Vector.{predictor};
ghost use Rattle.h263_description.specs.Kept.{vectors_in};
ghost use Rattle.h263_writer.specs.Write.{mcbpc_of, macroblock_of};
ghost use Rattle.h263_writer.specs.Sound.{macroblock_at};
ghost use Rattle.h263_writer.specs.Asked.{TypeAsked, MacroblockAsked};

use crate::{block, vector};
use bits::codeword;
use h263_description::kind;
use h263_words::WordTables;

// COD 0 in an INTER picture, and MCBPC.
fn typed(
    tables: &WordTables,
    intra: bool,
    kind: u8,
    pattern: usize,
    out: &mut [u8],
    at: usize,
) -> usize
    requires { TypeAsked tables.now intra kind pattern at }
    ensures { WroteBits (mcbpc_of intra kind pattern) out.old at out.new result }
{
    let meaning = (kind as usize) * 4 + pattern % 4;
    if intra {
        return codeword::append(out, at, h263_words::mcbpc_codeword(tables, true, meaning));
    }
    let after = bits::append(out, at, 1, 0);
    codeword::append(
        out,
        after,
        h263_words::mcbpc_codeword(tables, false, meaning),
    )
}

// "in an INTER macroblock the word of the pattern with its four bits turned"
fn turned(intra: bool, pattern: usize) -> usize
    requires { pattern ≤ 15 }
    ensures { result ≡ turned_of intra pattern }
{
    if intra {
        return pattern;
    }
    15 - pattern
}

// -1, -2, 1 and 2 as a field of 2 bits.
fn dquant_field(byte: u8) -> u32
    ensures { result ≡ field_of byte }
{
    if byte == 255 {
        return 0;
    }
    if byte == 254 {
        return 1;
    }
    byte as u32 + 1
}

// DQUANT, where the type has it.
fn quantiser(kind: u8, dquant: u8, out: &mut [u8], at: usize) -> usize
    requires { (T (pick (has_dquant kind) (is_dquant dquant) (is_zero dquant))) × (CountablePlace at (bits_if (has_dquant kind) (bits_of 2 (field_of dquant)))) }
    ensures { WroteBits (bits_if (has_dquant kind) (bits_of 2 (field_of dquant))) out.old at out.new result }
{
    if kind::has_dquant(kind) {
        return bits::append(out, at, 2, dquant_field(dquant));
    }
    at
}

// Macroblock n, which is sent, with its 384 levels: in a column of a picture so many macroblocks across; `headed` where its group has a header.
pub fn macroblock(
    tables: &WordTables,
    macroblocks: &[u8],
    levels: &[u8],
    n: usize,
    column: usize,
    across: usize,
    intra: bool,
    headed: bool,
    out: &mut [u8],
    at: usize,
) -> usize
    requires { MacroblockAsked tables.now macroblocks.now levels.now across n column intra headed at }
    ensures { WroteBits (macroblock_of intra (predictor across headed (vectors_in macroblocks.now) n) (macroblock_at (column + 1) macroblocks.now n levels.now)) out.old at out.new result }
{
    let a = n * 4;
    let kind = macroblocks[a];
    let dquant = macroblocks[a + 1];
    let own = kind::is_intra(kind);
    let pattern = block::pattern(levels, own);
    let coded = typed(tables, intra, kind, pattern, out, at);
    let patterned = codeword::append(
        out,
        coded,
        h263_words::cbpy_codeword(tables, turned(own, pattern / 4)),
    );
    let quantised = quantiser(kind, dquant, out, patterned);
    let pointed = vector::vector(
        tables,
        macroblocks,
        n,
        column,
        across,
        headed,
        out,
        quantised,
    );
    block::blocks(tables, levels, own, out, pointed)
}
