// QCIF and CIF, the formats of H.261: their sizes, the order of groups and macroblocks, the lengths of a description.
#![tactic(auto)]

ghost use Rattle.std.specs.Prelude.{◌≡◌};
ghost use Rattle.size.specs.Size.{width, height, limit, output_length};
ghost use Rattle.h261_groups.specs.Format.{size_of, format_bit, head_length, macroblocks_length, levels_length};

use size::Size;

pub mod order;

#[derive(Clone, Copy, PartialEq, Eq, Debug)]
pub enum Format {
    Qcif,
    Cif,
}

pub fn size_of(format: Format) -> Size
    ensures { result ≡ size_of format }
{
    match format {
        Format::Qcif => Size::Qcif,
        Format::Cif => Size::Cif,
    }
}

// ---- what its size decides

pub fn width(format: Format) -> usize
    ensures { result ≡ width (size_of format) }
{
    size::width(size_of(format))
}

pub fn height(format: Format) -> usize
    ensures { result ≡ height (size_of format) }
{
    size::height(size_of(format))
}

// The most bits of a picture.
pub fn limit(format: Format) -> usize
    ensures { result ≡ limit (size_of format) }
{
    size::limit(size_of(format))
}

// The writer's output.
pub fn output_length(format: Format) -> usize
    ensures { result ≡ output_length (size_of format) }
{
    size::output_length(size_of(format))
}

// ---- H.261's own

// PTYPE bit 4.
pub fn bit(format: Format) -> u8
    ensures { result ≡ format_bit format }
{
    match format {
        Format::Qcif => 0,
        Format::Cif => 1,
    }
}

pub fn head_length(format: Format) -> usize
    ensures { result ≡ head_length format }
{
    match format {
        Format::Qcif => 6,
        Format::Cif => 15,
    }
}

pub fn macroblocks_length(format: Format) -> usize
    ensures { result ≡ macroblocks_length format }
{
    match format {
        Format::Qcif => 396,
        Format::Cif => 1584,
    }
}

pub fn levels_length(format: Format) -> usize
    ensures { result ≡ levels_length format }
{
    match format {
        Format::Qcif => 38016,
        Format::Cif => 152064,
    }
}
