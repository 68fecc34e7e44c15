// Pictures written: a record goes on with the output's length in four bytes and the description. Every byte of the output is 165 before. Lines: "written N CHECK" and
// "refused NUMBER CHECK" with the check of the output; "not read back" where reading N bits of it doesn't give the description again.
use crate::BEFORE;
use checks::part;
use coding::Kind;
use std::io::{Read, Write};

// Whether the bits are read as this description, into lent scratch.
fn gives(
    bytes: &[u8],
    count: usize,
    kind: Kind,
    head: &[u8],
    macroblocks: &[u8],
    levels: &[u8],
    head_read: &mut [u8],
    macroblocks_read: &mut [u8],
    levels_read: &mut [u8],
) -> bool {
    let read = coding::read(kind, bytes, count, head_read, macroblocks_read, levels_read);
    let verdict = read.verdict;
    match verdict {
        Err(_) => false,
        Ok(()) => {
            text::same(head, head_read)
                && text::same(macroblocks, macroblocks_read)
                && text::same(levels, levels_read)
        }
    }
}

fn reads_back(
    bytes: &[u8],
    count: usize,
    kind: Kind,
    head: &[u8],
    macroblocks: &[u8],
    levels: &[u8],
) -> bool {
    let mut head_read = [0u8; 23];
    let mut macroblocks_read = [0u8; 1584];
    let mut levels_read = [0u8; 152064];
    let heads = part(coding::head_length(kind), &head_read);
    let fields = part(coding::macroblocks_length(kind), &macroblocks_read);
    let coefficients = part(coding::levels_length(kind), &levels_read);
    gives(
        bytes,
        count,
        kind,
        head,
        macroblocks,
        levels,
        &mut head_read[..heads],
        &mut macroblocks_read[..fields],
        &mut levels_read[..coefficients],
    )
}

fn say<O: Write>(
    stdout: &mut O,
    kind: Kind,
    head: &[u8],
    macroblocks: &[u8],
    levels: &[u8],
    out: &mut [u8],
) {
    let written = coding::write(kind, head, macroblocks, levels, out);
    match written {
        Ok(count) => {
            if reads_back(out, count, kind, head, macroblocks, levels) {
                checks::say(stdout, b"written");
                checks::say_number(stdout, count as u64);
                checks::say_check(stdout, out);
                checks::say(stdout, b"\n");
            } else {
                checks::say(stdout, b"not read back\n");
            }
        }
        Err(why) => {
            checks::say_refusal(stdout, why);
            checks::say_check(stdout, out);
            checks::say(stdout, b"\n");
        }
    }
}

// The rest of a record, and whether to go on.
pub fn one<I: Read, O: Write>(stdin: &mut I, stdout: &mut O, kind: Kind) -> bool {
    let mut start = [0u8; 4];
    if !checks::fills(stdin, &mut start) {
        return false;
    }
    let mut out = [BEFORE; 33792];
    let outs = checks::four(start[0], start[1], start[2], start[3]);
    let room = part(outs, &out);
    if room < outs {
        return false;
    }
    let mut head = [0u8; 64];
    let mut macroblocks = [0u8; 2048];
    let mut levels = [0u8; 153600];
    let described = checks::next_description(stdin, &mut head, &mut macroblocks, &mut levels);
    let Some(read) = described else {
        return false;
    };
    let headed = part(read.head, &head);
    let fielded = part(read.macroblocks, &macroblocks);
    let levelled = part(read.levels, &levels);
    say(
        stdout,
        kind,
        &head[..headed],
        &macroblocks[..fielded],
        &levels[..levelled],
        &mut out[..room],
    );
    true
}
