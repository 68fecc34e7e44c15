// Pictures drawn: a record goes on with head, macroblocks, levels and reference store in the kind's lengths, and has the line "CHECK" with the check of the store, or
// "invalid".
use checks::{fills_part, part};
use coding::Kind;
use std::io::{Read, Write};

// Whether the description is valid, and then drawn; both stores have the picture's length: the arrays have room for any.
fn draws(
    kind: Kind,
    head: &[u8],
    macroblocks: &[u8],
    levels: &[u8],
    reference: &[u8],
    store: &mut [u8],
) -> bool {
    let samples = size::store_length(coding::size_of(kind));
    if reference.len() != samples {
        return false;
    }
    if store.len() != samples {
        return false;
    }
    if !coding::valid(kind, head, macroblocks, levels) {
        return false;
    }
    coding::render(kind, head, macroblocks, levels, reference, store);
    true
}

fn say<O: Write>(
    stdout: &mut O,
    kind: Kind,
    head: &[u8],
    macroblocks: &[u8],
    levels: &[u8],
    reference: &[u8],
    store: &mut [u8],
) {
    if draws(kind, head, macroblocks, levels, reference, store) {
        checks::say_decimal(stdout, checks::check(store));
        checks::say(stdout, b"\n");
    } else {
        checks::say(stdout, b"invalid\n");
    }
}

// The rest of a record, and whether to go on.
pub fn one<I: Read, O: Write>(stdin: &mut I, stdout: &mut O, kind: Kind) -> bool {
    let mut head = [0u8; 23];
    let mut macroblocks = [0u8; 1584];
    let mut levels = [0u8; 152064];
    let mut reference = [0u8; 152064];
    let length = size::store_length(coding::size_of(kind));
    if !fills_part(stdin, coding::head_length(kind), &mut head)
        || !fills_part(stdin, coding::macroblocks_length(kind), &mut macroblocks)
        || !fills_part(stdin, coding::levels_length(kind), &mut levels)
        || !fills_part(stdin, length, &mut reference)
    {
        return false;
    }
    let mut store = [0u8; 152064];
    let heads = part(coding::head_length(kind), &head);
    let fields = part(coding::macroblocks_length(kind), &macroblocks);
    let coefficients = part(coding::levels_length(kind), &levels);
    let before = part(length, &reference);
    let after = part(length, &store);
    say(
        stdout,
        kind,
        &head[..heads],
        &macroblocks[..fields],
        &levels[..coefficients],
        &reference[..before],
        &mut store[..after],
    );
    true
}
