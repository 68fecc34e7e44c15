// MVD: a macroblock's vector against what predicts it.
ghost use Rattle.std.specs.Prelude.{◌*◌, get_or};
ghost use Rattle.bits.specs.Write.{bits_if};
ghost use Rattle.bits.specs.Appended.{WroteBits};
ghost use Rattle.layout.specs.Flat.{number_of, byte_vector};
ghost use Rattle.h263_words.specs.Words.{is_inter};
ghost use Rattle.h263_description.specs.Vector.{predictor as predictor_of};
ghost use Rattle.h263_description.specs.Landing.{component_of};
ghost use Rattle.h263_description.specs.Kept.{vectors_in};
ghost use Rattle.h263_writer.specs.Write.{component_bits, vector_bits};
ghost use Rattle.h263_writer.specs.Asked.{ComponentAsked, ComponentsAsked, VectorAsked};

use bits::codeword;
use h263_description::{kind, predicted};
use h263_words::WordTables;

// One component: Table 11 holds its difference modulo 64, from -32 on.
fn component(tables: &WordTables, predicted: usize, byte: u8, out: &mut [u8], at: usize) -> usize
    requires { ComponentAsked tables.now predicted byte at }
    ensures { WroteBits (component_bits (component_of predicted) (number_of byte)) out.old at out.new result }
{
    let own = predicted::residue(byte);
    let difference = (own + 96 - predicted) % 64;
    codeword::append(out, at, h263_words::mvd_codeword(tables, difference))
}

// Both, against a predicted vector that is kept as 32 more.
fn components(
    tables: &WordTables,
    horizontal: usize,
    vertical: usize,
    across: u8,
    down: u8,
    out: &mut [u8],
    at: usize,
) -> usize
    requires { ComponentsAsked tables.now horizontal vertical across down at }
    ensures { WroteBits (vector_bits (record { horizontal = component_of horizontal; vertical = component_of vertical }) (byte_vector across down)) out.old at out.new result }
{
    let after = component(tables, horizontal, across, out, at);
    component(tables, vertical, down, out, after)
}

// The vector of macroblock n, where its type has one.
pub fn vector(
    tables: &WordTables,
    macroblocks: &[u8],
    n: usize,
    column: usize,
    across: usize,
    headed: bool,
    out: &mut [u8],
    at: usize,
) -> usize
    requires { VectorAsked tables.now macroblocks.now across n column headed at }
    ensures { WroteBits (bits_if (is_inter (get_or macroblocks.now (n * 4) 0)) (vector_bits (predictor_of across headed (vectors_in macroblocks.now) n) (vectors_in macroblocks.now n))) out.old at out.new result }
{
    let a = n * 4;
    if !kind::is_inter(macroblocks[a]) {
        return at;
    }
    let from = predicted::predictor(macroblocks, n, column, across, headed);
    components(
        tables,
        from.horizontal,
        from.vertical,
        macroblocks[a + 2],
        macroblocks[a + 3],
        out,
        at,
    )
}
