// Pictures read: a record goes on with N and the slice's length in four bytes each, and the slice. Lines: "accepted DESCRIPTION STORE reads READS" with the two checks and
// how many fields and codewords were read, "refused NUMBER at PLACE reads READS", "refused 8 at PLACE table TABLE reads READS", "refused 2 reads 0"; "two verdicts" where
// reading and decoding disagree, and "a refusal that changed a buffer".
use crate::BEFORE;
use checks::part;
use coding::Kind;
use refusals::Refusal;
use std::io::{Read, Write};

fn say_reads<O: Write>(stdout: &mut O, reads: usize) {
    checks::say(stdout, b" reads");
    checks::say_number(stdout, reads as u64);
    checks::say(stdout, b"\n");
}

fn say_accepted<O: Write>(
    stdout: &mut O,
    reads: usize,
    head: &[u8],
    macroblocks: &[u8],
    levels: &[u8],
    store: &[u8],
) {
    checks::say(stdout, b"accepted");
    checks::say_number(stdout, checks::check_description(head, macroblocks, levels));
    checks::say_check(stdout, store);
    say_reads(stdout, reads);
}

fn unchanged(head: &[u8], macroblocks: &[u8], levels: &[u8], store: &[u8]) -> bool {
    checks::is_filled(head, BEFORE)
        && checks::is_filled(macroblocks, BEFORE)
        && checks::is_filled(levels, BEFORE)
        && checks::is_filled(store, BEFORE)
}

fn say_verdict<O: Write>(
    stdout: &mut O,
    verdict: Result<(), Refusal>,
    reads: usize,
    decoded: Result<(), Refusal>,
    head: &[u8],
    macroblocks: &[u8],
    levels: &[u8],
    store: &[u8],
) {
    if verdict != decoded {
        checks::say(stdout, b"two verdicts\n");
        return;
    }
    match verdict {
        Ok(()) => say_accepted(stdout, reads, head, macroblocks, levels, store),
        Err(why) => {
            if unchanged(head, macroblocks, levels, store) {
                checks::say_refusal(stdout, why);
                say_reads(stdout, reads);
            } else {
                checks::say(stdout, b"a refusal that changed a buffer\n");
            }
        }
    }
}

fn say<O: Write>(
    stdout: &mut O,
    kind: Kind,
    bytes: &[u8],
    count: usize,
    head: &mut [u8],
    macroblocks: &mut [u8],
    levels: &mut [u8],
    reference: &[u8],
    store: &mut [u8],
) {
    let read = coding::read(kind, bytes, count, head, macroblocks, levels);
    let verdict = read.verdict;
    let decoded = decoder::decode(bytes, count, kind, reference, store);
    say_verdict(
        stdout,
        verdict,
        read.reads,
        decoded,
        head,
        macroblocks,
        levels,
        store,
    );
}

fn with_buffers<O: Write>(
    stdout: &mut O,
    kind: Kind,
    bytes: &[u8],
    count: usize,
    pattern: &[u8; 152064],
) {
    let mut head = [BEFORE; 23];
    let mut macroblocks = [BEFORE; 1584];
    let mut levels = [BEFORE; 152064];
    let mut store = [BEFORE; 152064];
    let reference: &[u8] = pattern;
    let heads = part(coding::head_length(kind), &head);
    let fields = part(coding::macroblocks_length(kind), &macroblocks);
    let coefficients = part(coding::levels_length(kind), &levels);
    let length = size::store_length(coding::size_of(kind));
    let shown = part(length, reference);
    let samples = part(length, &store);
    say(
        stdout,
        kind,
        bytes,
        count,
        &mut head[..heads],
        &mut macroblocks[..fields],
        &mut levels[..coefficients],
        &reference[..shown],
        &mut store[..samples],
    );
}

// The rest of a record, and whether to go on.
pub fn one<I: Read, O: Write>(
    stdin: &mut I,
    stdout: &mut O,
    kind: Kind,
    pattern: &[u8; 152064],
) -> bool {
    let mut start = [0u8; 8];
    if !checks::fills(stdin, &mut start) {
        return false;
    }
    let count = checks::four(start[0], start[1], start[2], start[3]);
    let length = checks::four(start[4], start[5], start[6], start[7]);
    let mut bytes = [0u8; 131072];
    if !checks::fills_part(stdin, length, &mut bytes) {
        return false;
    }
    let whole = part(length, &bytes);
    with_buffers(stdout, kind, &bytes[..whole], count, pattern);
    true
}
