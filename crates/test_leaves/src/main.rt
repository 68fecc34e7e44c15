// Tests reads of bits and of tables, the inverse transform and due times: `test_leaves words`, `test_leaves h263-words`, `test_leaves blocks` or `test_leaves due`.
//
// Records of the case's length come on standard input, and the answer to each goes to standard output; src/words.rt, blocks.rt and due.rt say how both look. A short last
// record is ignored.
#![tactic(auto)]

ghost use Rattle.test_leaves.specs.Words.{TablesLent};

use h261_words::WordTables;
use std::io::{Read, Write};

mod blocks;
mod due;
mod words;

#[derive(Clone, Copy)]
enum Case {
    Words,
    Blocks,
    Due,
}

fn case_named(word: &[u8]) -> Option<Case> {
    if text::same(word, b"words") {
        return Some(Case::Words);
    }
    if text::same(word, b"h263-words") {
        return Some(Case::Words);
    }
    if text::same(word, b"blocks") {
        return Some(Case::Blocks);
    }
    if text::same(word, b"due") {
        return Some(Case::Due);
    }
    None
}

// One record, and whether to go on.
fn one<I: Read, O: Write>(
    stdin: &mut I,
    stdout: &mut O,
    case: Case,
    tables: &WordTables,
    newer: &h263_words::WordTables,
) -> bool
    requires { TablesLent tables.now newer.now }
{
    match case {
        Case::Words => words::one(stdin, stdout, tables, newer),
        Case::Blocks => blocks::one(stdin, stdout),
        Case::Due => due::one(stdin, stdout),
    }
}

// Nothing says that the input ends, so the loop counts its turns.
fn all<I: Read, O: Write>(
    stdin: &mut I,
    stdout: &mut O,
    case: Case,
    tables: &WordTables,
    newer: &h263_words::WordTables,
)
    requires { TablesLent tables.now newer.now }
{
    for _ in 0..100000000u64 {
        if !one(stdin, stdout, case, tables, newer) {
            break;
        }
    }
}

fn main(rt: HostRuntime) {
    let mut stdin = rt.stdin();
    let mut stdout = rt.stdout();
    let mut stderr = rt.stderr();
    let mut word = [0u8; 16];
    let count = checks::arg(&rt, 1, &mut word);
    let tables = h261_words::tables();
    let newer = h263_words::tables();
    match case_named(&word[..count]) {
        Some(case) => all(&mut stdin, &mut stdout, case, &tables, &newer),
        None => {
            let usage = b"usage: test_leaves words|h263-words|blocks|due < RECORDS\n";
            let _ = stderr.write_all(usage);
        }
    }
}
