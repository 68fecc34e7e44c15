// H.263's descriptions: what a picture's size decides of them, what a macroblock's type says, and what predicts its vector.
#![tactic(auto)]

ghost use Rattle.std.specs.Prelude.{◌≡◌};
ghost use Rattle.size.specs.Place.{macroblocks_across, macroblocks_down};
ghost use Rattle.h263_description.specs.Value.{format_number, format_code, head_length, macroblocks_length, levels_length};

use size::Size;

pub mod kind;
pub mod predicted;

// The macroblocks of a group, which is a row.
pub fn across(size: Size) -> usize
    ensures { result ≡ macroblocks_across size }
{
    match size {
        Size::SubQcif => 8,
        Size::Qcif => 11,
        Size::Cif => 22,
    }
}

// The groups of a picture.
pub fn down(size: Size) -> usize
    ensures { result ≡ macroblocks_down size }
{
    match size {
        Size::SubQcif => 6,
        Size::Qcif => 9,
        Size::Cif => 18,
    }
}

// The format as a description has it.
pub fn format_number(size: Size) -> u8
    ensures { result ≡ format_number size }
{
    match size {
        Size::SubQcif => 2,
        Size::Qcif => 0,
        Size::Cif => 1,
    }
}

// The format as PTYPE bits 6 to 8 have it.
pub fn format_code(size: Size) -> u32
    ensures { result ≡ format_code size }
{
    match size {
        Size::SubQcif => 1,
        Size::Qcif => 2,
        Size::Cif => 3,
    }
}

// ---- the lengths of the three slices

pub fn head_length(size: Size) -> usize
    ensures { result ≡ head_length size }
{
    match size {
        Size::SubQcif => 11,
        Size::Qcif => 14,
        Size::Cif => 23,
    }
}

pub fn macroblocks_length(size: Size) -> usize
    ensures { result ≡ macroblocks_length size }
{
    match size {
        Size::SubQcif => 192,
        Size::Qcif => 396,
        Size::Cif => 1584,
    }
}

pub fn levels_length(size: Size) -> usize
    ensures { result ≡ levels_length size }
{
    match size {
        Size::SubQcif => 18432,
        Size::Qcif => 38016,
        Size::Cif => 152064,
    }
}
