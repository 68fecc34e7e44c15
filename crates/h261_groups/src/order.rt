// The order of groups and macroblocks. A group counts from 0 here, as does a macroblock over the whole picture.
ghost use Rattle.std.specs.Prelude.{◌≡◌, ◌<◌, get_or};
ghost use Rattle.h261_groups.specs.Format.{group_numbers, group_count};
ghost use Rattle.h261_groups.specs.Order.{macroblock_count, row_of, column_of};

use crate::Format;

pub fn group_count(format: Format) -> usize
    ensures { result ≡ group_count format }
{
    match format {
        Format::Qcif => 3,
        Format::Cif => 12,
    }
}

// The number that a group is sent with.
pub fn group_number(format: Format, group: usize) -> usize
    requires { group < group_count format }
    ensures { result ≡ get_or (group_numbers format) group 0 }
{
    match format {
        Format::Qcif => group * 2 + 1,
        Format::Cif => group + 1,
    }
}

pub fn macroblock_count(format: Format) -> usize
    ensures { result ≡ macroblock_count format }
{
    match format {
        Format::Qcif => 99,
        Format::Cif => 396,
    }
}

// The row and the column of macroblocks that a macroblock stands in.
pub fn row(format: Format, macroblock: usize) -> usize
    requires { macroblock < macroblock_count format }
    ensures { result ≡ row_of format macroblock }
{
    match format {
        Format::Qcif => macroblock / 11,
        Format::Cif => macroblock / 66 * 3 + macroblock % 33 / 11,
    }
}

pub fn column(format: Format, macroblock: usize) -> usize
    requires { macroblock < macroblock_count format }
    ensures { result ≡ column_of format macroblock }
{
    match format {
        Format::Qcif => macroblock % 11,
        Format::Cif => macroblock / 33 % 2 * 11 + macroblock % 11,
    }
}
