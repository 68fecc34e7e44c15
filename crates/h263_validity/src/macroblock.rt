// A macroblock under the rules of its type, its place and its picture's type.
ghost use Rattle.std.specs.Prelude.{◌≡◌, ◌≤◌, ◌*◌, length, get_or, pos, ◌+ℤ◌};
ghost use Rattle.laws.specs.Choice.{both, pick};
ghost use Rattle.h263_words.specs.Words.{has_dquant, is_dquant, is_inter};
ghost use Rattle.layout.specs.Flat.{number_of};
ghost use Rattle.layout.specs.Numbers.{is_zero};
ghost use Rattle.h263_description.specs.Vector.{between, in_range};
ghost use Rattle.h263_description.specs.Valid.{valid_vector, valid_levels, valid_type, valid_macroblock};
ghost use Rattle.h263_validity.specs.Ready.{Addressed, MacroblockReady};

use size::Size;

// A picture of type INTRA has macroblocks of INTRA types alone.
fn valid_type(intra: bool, kind: u8) -> bool
    ensures { result ≡ valid_type intra kind }
{
    if intra {
        return h263_description::kind::is_intra(kind);
    }
    kind <= 4
}

// -1, -2, 1 or 2.
fn is_dquant(byte: u8) -> bool
    ensures { result ≡ is_dquant byte }
{
    if byte == 255 {
        return true;
    }
    if byte == 254 {
        return true;
    }
    if byte == 1 {
        return true;
    }
    byte == 2
}

// DQUANT stands where the type has it, and is 0 where it hasn't.
fn valid_dquant(kind: u8, dquant: u8) -> bool
    ensures { result ≡ pick (has_dquant kind) (is_dquant dquant) (is_zero dquant) }
{
    if h263_description::kind::has_dquant(kind) {
        return is_dquant(dquant);
    }
    dquant == 0
}

// A component in -32..31 with which 16 samples from `from` on, in half samples, begin at `last` at most.
fn valid_component(byte: u8, from: usize, last: usize) -> bool
    requires { from ≤ 65535 }
    ensures { result ≡ both (in_range (number_of byte)) (between (pos 0) (pos last) (pos (2 * from) +ℤ number_of byte)) }
{
    let number = byte as usize;
    let start = 2 * from;
    if number <= 31 {
        return start + number <= last;
    }
    if number < 224 {
        return false;
    }
    let back = 256 - number;
    if start < back {
        return false;
    }
    start - back <= last
}

// The vector obeys the rules where the type has one, and is 0 where it hasn't.
fn valid_vector(size: Size, number: usize, address: usize, fields: &[u8]) -> bool
    requires { (Addressed number address) × (length fields.now ≡ 4) }
    ensures { result ≡ pick (is_inter (get_or fields.now 0 0)) (valid_vector size number address fields.now) (both (is_zero (get_or fields.now 2 0)) (is_zero (get_or fields.now 3 0))) }
{
    let across = fields[2];
    let down = fields[3];
    if h263_description::kind::is_inter(fields[0]) {
        let column = (address - 1) * 16;
        if !valid_component(across, column, 2 * (size::width(size) - 16)) {
            return false;
        }
        return valid_component(down, number * 16, 2 * (size::height(size) - 16));
    }
    if across != 0 {
        return false;
    }
    down == 0
}

// Whether a macroblock of this type may have these levels: an INTER one may have any.
fn valid_levels(kind: u8, bytes: &[u8]) -> bool
    requires { length bytes.now ≡ 384 }
    ensures { result ≡ valid_levels kind bytes.now }
{
    if h263_description::kind::is_intra(kind) {
        if levels::all_levels(bytes) {
            return levels::codes_first(bytes);
        }
        return false;
    }
    if h263_description::kind::is_inter(kind) {
        return levels::all_levels(bytes);
    }
    levels::all_zero(bytes)
}

// The macroblock at an address of a group: its four fields, and its 384 levels.
pub fn valid_macroblock(
    size: Size,
    intra: bool,
    number: usize,
    address: usize,
    fields: &[u8],
    levels: &[u8],
) -> bool
    requires { MacroblockReady number address fields.now levels.now }
    ensures { result ≡ valid_macroblock size intra number address fields.now levels.now }
{
    let kind = fields[0];
    if !valid_type(intra, kind) {
        return false;
    }
    if !valid_dquant(kind, fields[1]) {
        return false;
    }
    if !valid_vector(size, number, address, fields) {
        return false;
    }
    valid_levels(kind, levels)
}
