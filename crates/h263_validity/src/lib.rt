// Whether a description of H.263 is valid, and whether it is a refresh: three lent slices.
#![tactic(auto)]

ghost use Rattle.std.specs.Prelude.{◌≡◌, Bool, [], ◌≤◌, length, drop};
ghost use Rattle.size.specs.Place.{macroblocks_across};
ghost use Rattle.layout.specs.Flat.{flat};
ghost use Rattle.layout.specs.Numbers.{all, within};
ghost use Rattle.h263_description.specs.Value.{group_numbers, macroblocks_length, levels_length};
ghost use Rattle.h263_description.specs.Fields.{refresh};
ghost use Rattle.h263_description.specs.Valid.{lengths_of, one_size, valid_gquants, valid_head, valid_macroblocks, valid_groups, valid as is_valid};
ghost use Rattle.h263_validity.specs.Ready.{GroupReady};

use size::Size;

mod macroblock;

// Whether the three slices have the lengths of this size's description.
pub fn lengths(head: &[u8], macroblocks: &[u8], levels: &[u8], size: Size) -> bool
    ensures { result ≡ lengths_of size (flat head.now macroblocks.now levels.now) }
{
    if head.len() != h263_description::head_length(size) {
        return false;
    }
    if macroblocks.len() != h263_description::macroblocks_length(size) {
        return false;
    }
    levels.len() == h263_description::levels_length(size)
}

// Whether the three slices have the lengths of one size's description.
pub fn one_size(head: &[u8], macroblocks: &[u8], levels: &[u8]) -> bool
    ensures { result ≡ one_size (flat head.now macroblocks.now levels.now) }
{
    if lengths(head, macroblocks, levels, Size::SubQcif) {
        return true;
    }
    if lengths(head, macroblocks, levels, Size::Qcif) {
        return true;
    }
    lengths(head, macroblocks, levels, Size::Cif)
}

// Whether every byte from the fifth on is at most 31.
fn low_gquants(head: &[u8]) -> bool
    requires { 5 ≤ length head.now }
    ensures { result ≡ all (within 0 31) (drop 5 head.now) }
{
    head[5..].iter().all(|gquant| *gquant <= 31)
}

// The first group has no header, and none has a GQUANT above 31.
fn valid_gquants(head: &[u8]) -> bool
    requires { 6 ≤ length head.now }
    ensures { result ≡ valid_gquants (drop 5 head.now) }
{
    if head[5] != 0 {
        return false;
    }
    low_gquants(head)
}

// TR is a byte.
fn valid_head(head: &[u8], size: Size) -> bool
    requires { 6 ≤ length head.now }
    ensures { result ≡ valid_head size head.now }
{
    if 7 < head[1] {
        return false;
    }
    if head[2] != h263_description::format_number(size) {
        return false;
    }
    if 1 < head[3] {
        return false;
    }
    if !levels::is_quantiser(head[4]) {
        return false;
    }
    valid_gquants(head)
}

// The macroblocks of the group that the slices begin with, in a picture of type INTRA or of type INTER.
fn valid_group(size: Size, intra: bool, number: usize, fields: &[u8], levels: &[u8]) -> bool
    requires { GroupReady size number fields.now levels.now }
    ensures { result ≡ valid_macroblocks (macroblocks_across size) size intra number 1 fields.now levels.now }
{
    let count = h263_description::across(size);
    for k in 0..count {
        let a = k * 4;
        let b = k * 384;
        if !macroblock::valid_macroblock(
            size,
            intra,
            number,
            k + 1,
            &fields[a..a + 4],
            &levels[b..b + 384],
        ) {
            return false;
        }
    }
    true
}

fn valid_groups(size: Size, intra: bool, fields: &[u8], levels: &[u8]) -> bool
    requires { (length fields.now ≡ macroblocks_length size) × (length levels.now ≡ levels_length size) }
    ensures { result ≡ valid_groups size intra (group_numbers size) fields.now levels.now }
{
    let each = h263_description::across(size);
    let count = h263_description::down(size);
    for g in 0..count {
        let a = g * (each * 4);
        let b = g * (each * 384);
        if !valid_group(size, intra, g, &fields[a..], &levels[b..]) {
            return false;
        }
    }
    true
}

// Whether the three slices are a valid description of this size.
pub fn valid(head: &[u8], macroblocks: &[u8], levels: &[u8], size: Size) -> bool
    ensures { result ≡ is_valid size (flat head.now macroblocks.now levels.now) }
{
    if !lengths(head, macroblocks, levels, size) {
        return false;
    }
    if !valid_head(head, size) {
        return false;
    }
    valid_groups(size, head[3] == 0, macroblocks, levels)
}

// Whether a described picture is of type INTRA. Nothing else of a description is looked at; a type that isn't there reads as 0, as any field past a slice's end.
pub fn is_refresh(head: &[u8]) -> bool
    ensures { result ≡ refresh (flat head.now [] []) }
{
    if head.len() < 4 {
        return true;
    }
    head[3] == 0
}
