// Tests pictures drawn, written and read: `test_pictures render`, `test_pictures write` or `test_pictures pictures`.
//
// A record on standard input begins with the kind (0 QCIF and 1 CIF of H.261, 2 sub-QCIF, 3 QCIF and 4 CIF of H.263), and has a line on standard output; src/render.rt,
// write.rt and pictures.rt say how both go on. Stops at the end of the input, at a short record, at another kind and at a length beyond the program's room.
#![tactic(auto)]

ghost use Rattle.std.specs.Prelude.{◌<◌};

use std::io::{Read, Write};

mod pictures;
mod render;
mod write;

// What every byte of a buffer is before it is lent.
const BEFORE: u8 = 165;

#[derive(Clone, Copy)]
enum Case {
    Render,
    Write,
    Pictures,
}

fn case_named(word: &[u8]) -> Option<Case> {
    if text::same(word, b"render") {
        return Some(Case::Render);
    }
    if text::same(word, b"write") {
        return Some(Case::Write);
    }
    if text::same(word, b"pictures") {
        return Some(Case::Pictures);
    }
    None
}

// One record, and whether to go on.
fn one<I: Read, O: Write>(
    stdin: &mut I,
    stdout: &mut O,
    case: Case,
    pattern: &[u8; 152064],
) -> bool {
    let mut start = [0u8; 1];
    if !checks::fills(stdin, &mut start) || 4 < start[0] {
        return false;
    }
    let kind = checks::kind_named(start[0]);
    match case {
        Case::Render => render::one(stdin, stdout, kind),
        Case::Write => write::one(stdin, stdout, kind),
        Case::Pictures => pictures::one(stdin, stdout, kind, pattern),
    }
}

// Nothing says that the input ends, so the loop counts its turns.
fn all<I: Read, O: Write>(stdin: &mut I, stdout: &mut O, case: Case, pattern: &[u8; 152064]) {
    for _ in 0..100000000u64 {
        if !one(stdin, stdout, case, pattern) {
            break;
        }
    }
}

// Byte i of the reference store over which pictures are read.
fn sample(i: usize) -> u8
    requires { i < 152064 }
{
    ((37 * i + 11 * (i / 176)) % 251) as u8
}

fn lay(pattern: &mut [u8; 152064]) {
    for i in 0..152064 {
        pattern[i] = sample(i);
    }
}

fn main(rt: HostRuntime) {
    let mut stdin = rt.stdin();
    let mut stdout = rt.stdout();
    let mut stderr = rt.stderr();
    let mut word = [0u8; 16];
    let count = checks::arg(&rt, 1, &mut word);
    match case_named(&word[..count]) {
        None => {
            let _ = stderr.write_all(b"usage: test_pictures render|write|pictures < RECORDS\n");
        }
        Some(case) => {
            let mut pattern = [0u8; 152064];
            lay(&mut pattern);
            all(&mut stdin, &mut stdout, case, &pattern);
        }
    }
}
