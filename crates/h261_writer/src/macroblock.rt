// The macroblock layer.
ghost use Rattle.std.specs.Prelude.{T};
ghost use Rattle.laws.specs.Choice.{pick};
ghost use Rattle.bits.specs.Bits.{bits_of};
ghost use Rattle.bits.specs.Code.{word_of};
ghost use Rattle.bits.specs.Appended.{WroteBits, CountablePlace};
ghost use Rattle.h261_words.specs.Tables.{table4};
ghost use Rattle.h261_words.specs.Words.{has_mquant, has_cbp};
ghost use Rattle.layout.specs.Flat.{gathers, macroblock_in};
ghost use Rattle.layout.specs.Numbers.{is_quantiser, is_zero};
ghost use Rattle.bits.specs.Write.{bits_if};
ghost use Rattle.layout.specs.Pattern.{pattern_of};
ghost use Rattle.h261_writer.specs.Write.{macroblock_of};
ghost use Rattle.h261_writer.specs.Sound.{before_in};
ghost use Rattle.h261_writer.specs.Asked.{PatternAsked, MacroblockAsked};

use crate::{block, vector};
use h261_words::WordTables;

// MQUANT, where the type has it.
fn quantiser(kind: u8, mquant: u8, out: &mut [u8], at: usize) -> usize
    requires { (T (pick (has_mquant kind) (is_quantiser mquant) (is_zero mquant))) × (CountablePlace at (bits_if (has_mquant kind) (bits_of 5 mquant))) }
    ensures { WroteBits (bits_if (has_mquant kind) (bits_of 5 mquant)) out.old at out.new result }
{
    if h261_words::kind::has_mquant(kind as u16) {
        return bits::append(out, at, 5, mquant as u32);
    }
    at
}

// CBP, where the type has it.
fn pattern(tables: &WordTables, kind: u8, levels: &[u8], out: &mut [u8], at: usize) -> usize
    requires { PatternAsked tables.now kind levels.now at }
    ensures { WroteBits (bits_if (has_cbp kind) (word_of table4 (pattern_of (gathers 6 levels.now)))) out.old at out.new result }
{
    if h261_words::kind::has_cbp(kind as u16) {
        let word = h261_words::cbp_codeword(tables, block::pattern(levels));
        return bits::codeword::append(out, at, word);
    }
    at
}

// The macroblock at an address: its four fields and 384 levels, after the one at `last` with the vector (horizontal, vertical).
pub fn macroblock(
    tables: &WordTables,
    fields: &[u8],
    levels: &[u8],
    last: usize,
    horizontal: u8,
    vertical: u8,
    address: usize,
    out: &mut [u8],
    at: usize,
) -> usize
    requires { MacroblockAsked tables.now fields.now levels.now last address horizontal vertical at }
    ensures { WroteBits (macroblock_of (before_in last horizontal vertical) (macroblock_in address fields.now levels.now)) out.old at out.new result }
{
    let kind = fields[0];
    let step = address - last;
    let addressed = bits::codeword::append(out, at, h261_words::mba_codeword(tables, step));
    let typed = bits::codeword::append(
        out,
        addressed,
        h261_words::mtype_codeword(tables, kind as usize),
    );
    let quantised = quantiser(kind, fields[1], out, typed);
    let pointed = vector::vector(
        tables, kind, last, step, horizontal, vertical, fields[2], fields[3], out, quantised,
    );
    let patterned = pattern(tables, kind, levels, out, pointed);
    block::blocks(
        tables,
        levels,
        h261_words::kind::is_intra(kind as u16),
        out,
        patterned,
    )
}
