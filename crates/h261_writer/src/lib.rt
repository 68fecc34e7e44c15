// From a valid description to the bits of its picture.
#![tactic(auto)]

ghost use Rattle.std.specs.Prelude.{T};
ghost use Rattle.bits.specs.Appended.{WroteBits};
ghost use Rattle.h261_description.specs.Valid.{valid as is_valid};
ghost use Rattle.layout.specs.Flat.{flat};
ghost use Rattle.h261_writer.specs.Write.{picture_bits};

use h261_groups::Format;

mod block;
mod group;
mod macroblock;
mod picture;
mod vector;

// The bits of a valid description's picture from the output's first on, as far as it has room for them, and how many they are.
pub fn append_picture(
    head: &[u8],
    macroblocks: &[u8],
    levels: &[u8],
    format: Format,
    out: &mut [u8],
) -> usize
    requires { T (is_valid format (flat head.now macroblocks.now levels.now)) }
    ensures { WroteBits (picture_bits format (flat head.now macroblocks.now levels.now)) out.old 0 out.new result }
{
    let tables = h261_words::tables();
    picture::picture(&tables, head, macroblocks, levels, format, out)
}
