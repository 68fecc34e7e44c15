// Whether a description is valid, under document 01's rules, and whether it is a refresh: three lent slices.
#![tactic(auto)]

ghost use Rattle.std.specs.Prelude.{◌≡◌, ◌+◌, ◌*◌, ◌≤◌, length, drop};
ghost use Rattle.h261_groups.specs.Format.{macroblocks_length, levels_length, group_numbers};
ghost use Rattle.layout.specs.Numbers.{all, is_quantiser};
ghost use Rattle.h261_description.specs.Valid.{lengths_of, one_format, valid_head, valid_macroblocks, valid_groups, valid as is_valid};
ghost use Rattle.layout.specs.Flat.{flat};
ghost use Rattle.h261_validity.specs.Ready.{GroupReady};

use h261_groups::Format;

mod macroblock;
pub mod refresh;

// Whether the three slices have the lengths of this format's description.
pub fn lengths(head: &[u8], macroblocks: &[u8], levels: &[u8], format: Format) -> bool
    ensures { result ≡ lengths_of format (flat head.now macroblocks.now levels.now) }
{
    if head.len() != h261_groups::head_length(format) {
        return false;
    }
    if macroblocks.len() != h261_groups::macroblocks_length(format) {
        return false;
    }
    levels.len() == h261_groups::levels_length(format)
}

// Whether the three slices have the lengths of one format's description.
pub fn one_format(head: &[u8], macroblocks: &[u8], levels: &[u8]) -> bool
    ensures { result ≡ one_format (flat head.now macroblocks.now levels.now) }
{
    if lengths(head, macroblocks, levels, Format::Qcif) {
        return true;
    }
    lengths(head, macroblocks, levels, Format::Cif)
}

// Whether every byte from the third on is a quantiser.
fn all_quantisers(head: &[u8]) -> bool
    requires { 3 ≤ length head.now }
    ensures { result ≡ all is_quantiser (drop 3 head.now) }
{
    head[3..].iter().all(|byte| levels::is_quantiser(*byte))
}

fn valid_head(head: &[u8], format: Format) -> bool
    requires { 3 ≤ length head.now }
    ensures { result ≡ valid_head format head.now }
{
    if 31 < head[0] {
        return false;
    }
    if 7 < head[1] {
        return false;
    }
    if head[2] != h261_groups::bit(format) {
        return false;
    }
    all_quantisers(head)
}

// The 33 macroblocks of a group that the slices begin with.
fn valid_group(format: Format, number: usize, fields: &[u8], levels: &[u8]) -> bool
    requires { GroupReady number fields.now levels.now }
    ensures { result ≡ valid_macroblocks 33 format number 1 fields.now levels.now }
{
    for k in 0..33 {
        let a = k * 4;
        let b = k * 384;
        if !macroblock::valid_macroblock(
            format,
            number,
            k + 1,
            &fields[a..a + 4],
            &levels[b..b + 384],
        ) {
            return false;
        }
    }
    true
}

fn valid_groups(format: Format, fields: &[u8], levels: &[u8]) -> bool
    requires { (length fields.now ≡ macroblocks_length format) × (length levels.now ≡ levels_length format) }
    ensures { result ≡ valid_groups format (group_numbers format) fields.now levels.now }
{
    let count = h261_groups::order::group_count(format);
    for g in 0..count {
        let number = h261_groups::order::group_number(format, g);
        let a = g * 132;
        let b = g * 12672;
        if !valid_group(format, number, &fields[a..], &levels[b..]) {
            return false;
        }
    }
    true
}

// Whether the three slices are a valid description of this format.
pub fn valid(head: &[u8], macroblocks: &[u8], levels: &[u8], format: Format) -> bool
    ensures { result ≡ is_valid format (flat head.now macroblocks.now levels.now) }
{
    if !lengths(head, macroblocks, levels, format) {
        return false;
    }
    if !valid_head(head, format) {
        return false;
    }
    valid_groups(format, macroblocks, levels)
}
