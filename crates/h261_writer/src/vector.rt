// MVD: a macroblock's vector against the preceding one. Components are bytes, in two's complement.
ghost use Rattle.bits.specs.Appended.{WroteBits};
ghost use Rattle.h261_words.specs.Words.{is_mc};
ghost use Rattle.h261_description.specs.Vector.{preceding as preceding_of};
ghost use Rattle.layout.specs.Flat.{number_of, byte_vector};
ghost use Rattle.bits.specs.Write.{bits_if};
ghost use Rattle.h261_writer.specs.Write.{component_bits, vector_bits};
ghost use Rattle.h261_writer.specs.Sound.{before_in};
ghost use Rattle.h261_writer.specs.Asked.{ComponentAsked, ComponentsAsked, VectorAsked};

use h261_words::WordTables;

// One component: Table 3 holds its difference modulo 32, from -16 on.
fn component(tables: &WordTables, preceding: u8, byte: u8, out: &mut [u8], at: usize) -> usize
    requires { ComponentAsked tables.now preceding byte at }
    ensures { WroteBits (component_bits (number_of preceding) (number_of byte)) out.old at out.new result }
{
    let difference = (byte as usize + 304 - preceding as usize) % 32;
    let word = h261_words::mvd_codeword(tables, difference);
    bits::codeword::append(out, at, word)
}

fn components(
    tables: &WordTables,
    horizontal: u8,
    vertical: u8,
    across: u8,
    down: u8,
    out: &mut [u8],
    at: usize,
) -> usize
    requires { ComponentsAsked tables.now horizontal vertical across down at }
    ensures { WroteBits (vector_bits (byte_vector horizontal vertical) (byte_vector across down)) out.old at out.new result }
{
    let after = component(tables, horizontal, across, out, at);
    component(tables, vertical, down, out, after)
}

// The vector, where the type has one; `last` is the address of the last macroblock sent, and (horizontal, vertical) its vector.
pub fn vector(
    tables: &WordTables,
    kind: u8,
    last: usize,
    step: usize,
    horizontal: u8,
    vertical: u8,
    across: u8,
    down: u8,
    out: &mut [u8],
    at: usize,
) -> usize
    requires { VectorAsked tables.now kind last step horizontal vertical across down at }
    ensures { WroteBits (bits_if (is_mc kind) (vector_bits (preceding_of (before_in last horizontal vertical) step) (byte_vector across down))) out.old at out.new result }
{
    if !h261_words::kind::is_mc(kind as u16) {
        return at;
    }
    if h261_description::restarts(last, step) {
        return components(tables, 0, 0, across, down, out, at);
    }
    components(tables, horizontal, vertical, across, down, out, at)
}
