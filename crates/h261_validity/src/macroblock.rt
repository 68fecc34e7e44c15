// A macroblock under the rules of its type and place.
ghost use Rattle.std.specs.Prelude.{◌≡◌, ◌≤◌, ◌<◌, length, get_or};
ghost use Rattle.laws.specs.Choice.{both, pick};
ghost use Rattle.h261_groups.specs.Format.{Addressed};
ghost use Rattle.h261_words.specs.Words.{has_mquant, is_mc};
ghost use Rattle.h261_description.specs.Vector.{in_range, inside};
ghost use Rattle.layout.specs.Flat.{number_of};
ghost use Rattle.layout.specs.Numbers.{is_quantiser, is_zero};
ghost use Rattle.h261_description.specs.Valid.{valid_vector, valid_levels, valid_macroblock};
ghost use Rattle.h261_validity.specs.Ready.{MacroblockReady};

use h261_groups::Format;

// MQUANT stands where the type has it, and is 0 where it hasn't.
fn valid_mquant(kind: u8, mquant: u8) -> bool
    ensures { result ≡ pick (has_mquant kind) (is_quantiser mquant) (is_zero mquant) }
{
    if h261_words::kind::has_mquant(kind as u16) {
        return levels::is_quantiser(mquant);
    }
    mquant == 0
}

// A component in -15..15, with which the 16 samples from `from` on lie among the first `end`.
fn valid_component(byte: u8, from: usize, end: usize) -> bool
    requires { (from ≤ 65535) × (end ≤ 65535) }
    ensures { result ≡ both (in_range (number_of byte)) (inside end from (number_of byte)) }
{
    let number = byte as usize;
    if number <= 15 {
        return from + number + 16 <= end;
    }
    if number <= 240 {
        return false;
    }
    let back = 256 - number;
    if from < back {
        return false;
    }
    from + 16 <= end + back
}

// The vector obeys the rules where the type has one, and is 0 where it hasn't.
fn valid_vector(format: Format, number: usize, address: usize, fields: &[u8]) -> bool
    requires { (Addressed number address) × (length fields.now ≡ 4) }
    ensures { result ≡ pick (is_mc (get_or fields.now 0 0)) (valid_vector format number address fields.now) (both (is_zero (get_or fields.now 2 0)) (is_zero (get_or fields.now 3 0))) }
{
    let across = fields[2];
    let down = fields[3];
    if h261_words::kind::is_mc(fields[0] as u16) {
        let column = (number - 1) % 2 * 176 + (address - 1) % 11 * 16;
        let row = (number - 1) / 2 * 48 + (address - 1) / 11 * 16;
        if !valid_component(across, column, h261_groups::width(format)) {
            return false;
        }
        return valid_component(down, row, h261_groups::height(format));
    }
    if across != 0 {
        return false;
    }
    down == 0
}

// Whether a macroblock of this type may have these levels.
fn valid_levels(kind: u8, bytes: &[u8]) -> bool
    requires { length bytes.now ≡ 384 }
    ensures { result ≡ valid_levels kind bytes.now }
{
    if h261_words::kind::is_intra(kind as u16) {
        if levels::all_levels(bytes) {
            return levels::codes_first(bytes);
        }
        return false;
    }
    if h261_words::kind::has_cbp(kind as u16) {
        if levels::all_levels(bytes) {
            if levels::all_zero(bytes) {
                return false;
            }
            return true;
        }
        return false;
    }
    levels::all_zero(bytes)
}

// The macroblock at an address of a group: its four fields, and its 384 levels.
pub fn valid_macroblock(
    format: Format,
    number: usize,
    address: usize,
    fields: &[u8],
    levels: &[u8],
) -> bool
    requires { MacroblockReady number address fields.now levels.now }
    ensures { result ≡ valid_macroblock format number address fields.now levels.now }
{
    let kind = fields[0];
    if 10 < kind {
        return false;
    }
    if !valid_mquant(kind, fields[1]) {
        return false;
    }
    if !valid_vector(format, number, address, fields) {
        return false;
    }
    valid_levels(kind, levels)
}
