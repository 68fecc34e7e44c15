// What each read of bits or of a table finds, a line for each record of 32 bytes.
//
// Byte 0 is the read: 1 MBA, 2 MTYPE, 3 MVD, 4 CBP, 5 TCOEFF, 6 TCOEFF for the first coefficient of a block that is not INTRA, 7 a field of byte 1
// bits; of H.263 8 MCBPC in an INTRA picture, 9 in an INTER one, 10 CBPY, 11 MVD, 12 TCOEF. Bytes 2-3 are N and 4-5 the place, high byte first; byte 6
// is the slice's length, at most 24, and the slice stands from byte 8 on.
// Lines: "got MEANING NEXT", "got RUN LEVEL NEXT", "got LAST RUN LEVEL NEXT", "eob NEXT", "refused NUMBER PLACE TABLE"; "refused 2 0 0" where the record
// asks for no such read. The meaning of MCBPC is its index in the Recommendation's table.
ghost use Rattle.std.specs.Prelude.{◌≡◌, ◌≤◌, length};
ghost use Rattle.bits.specs.Answer.{Within};
ghost use Rattle.h261_words.specs.Lookup.{Tables};
ghost use Rattle.h263_words.specs.Lookup.{Tables as NewerTables};
ghost use Rattle.test_leaves.specs.Words.{TablesLent};

use bits::FieldRead;
use checks::{say, say_number, two};
use h261_words::{CoefficientRead, WordTables};
use h263_words::EventRead;
use refusals::{Reason, Refusal};
use std::io::{Read, Write};

fn say_refused<O: Write>(stdout: &mut O, r: Refusal) {
    say(stdout, b"refused");
    let reason = r.reason;
    say_number(stdout, refusals::number_of(reason) as u64);
    say_number(stdout, r.place as u64);
    say_number(stdout, refusals::table_of(reason) as u64);
    say(stdout, b"\n");
}

fn say_none<O: Write>(stdout: &mut O) {
    say_refused(
        stdout,
        Refusal {
            reason: Reason::Count,
            place: 0,
        },
    );
}

fn say_got<O: Write>(stdout: &mut O, meaning: u64, next: usize) {
    say(stdout, b"got");
    say_number(stdout, meaning);
    say_number(stdout, next as u64);
    say(stdout, b"\n");
}

fn say_field<O: Write>(stdout: &mut O, r: FieldRead<u32>) {
    match r {
        FieldRead::Got(v, p) => say_got(stdout, v as u64, p),
        FieldRead::Refused(x) => say_refused(stdout, x),
    }
}

// A level in eight bits, with its sign.
fn say_level<O: Write>(stdout: &mut O, code: u8) {
    if code < 128 {
        say_number(stdout, code as u64);
    } else {
        say(stdout, b" -");
        checks::say_decimal(stdout, 256 - code as u64);
    }
}

fn say_coefficient<O: Write>(stdout: &mut O, r: CoefficientRead) {
    match r {
        CoefficientRead::Coefficient(run, code, p) => {
            say(stdout, b"got");
            say_number(stdout, run as u64);
            say_level(stdout, code);
            say_number(stdout, p as u64);
            say(stdout, b"\n");
        }
        CoefficientRead::EndOfBlock(p) => {
            say(stdout, b"eob");
            say_number(stdout, p as u64);
            say(stdout, b"\n");
        }
        CoefficientRead::Refused(x) => say_refused(stdout, x),
    }
}

fn ask_word<O: Write>(
    stdout: &mut O,
    tables: &WordTables,
    kind: u8,
    bytes: &[u8],
    count: usize,
    at: usize,
)
    requires { (Tables tables.now) × (Within bytes.now count at) }
{
    match kind {
        1 => say_field(stdout, h261_words::mba(tables, bytes, count, at)),
        2 => say_field(stdout, h261_words::mtype(tables, bytes, count, at)),
        3 => say_field(stdout, h261_words::mvd(tables, bytes, count, at)),
        4 => say_field(stdout, h261_words::cbp(tables, bytes, count, at)),
        5 => say_coefficient(
            stdout,
            h261_words::coefficient(tables, bytes, count, at, false),
        ),
        6 => say_coefficient(
            stdout,
            h261_words::coefficient(tables, bytes, count, at, true),
        ),
        _ => say_none(stdout),
    }
}

// Where the words of a type begin in the Recommendation's table; stuffing, the last, is of none.
fn first_index(kind: u32, intra: bool) -> u64
    ensures { result ≤ 20 }
{
    if intra {
        return match kind {
            1 => 0,
            2 => 4,
            _ => 8,
        };
    }
    match kind {
        3 => 0,
        4 => 4,
        5 => 8,
        1 => 12,
        2 => 16,
        _ => 20,
    }
}

fn say_kind<O: Write>(stdout: &mut O, r: FieldRead<u32>, intra: bool) {
    match r {
        FieldRead::Got(v, p) => say_got(stdout, first_index(v / 4, intra) + (v % 4) as u64, p),
        FieldRead::Refused(x) => say_refused(stdout, x),
    }
}

fn say_event<O: Write>(stdout: &mut O, r: EventRead) {
    match r {
        EventRead::Event(last, run, code, p) => {
            say(stdout, b"got");
            say_number(stdout, last as u64);
            say_number(stdout, run as u64);
            say_level(stdout, code);
            say_number(stdout, p as u64);
            say(stdout, b"\n");
        }
        EventRead::Refused(x) => say_refused(stdout, x),
    }
}

fn ask_newer_word<O: Write>(
    stdout: &mut O,
    tables: &h263_words::WordTables,
    kind: u8,
    bytes: &[u8],
    count: usize,
    at: usize,
)
    requires { (NewerTables tables.now) × (Within bytes.now count at) }
{
    match kind {
        8 => say_kind(
            stdout,
            h263_words::mcbpc(tables, bytes, count, at, true),
            true,
        ),
        9 => say_kind(
            stdout,
            h263_words::mcbpc(tables, bytes, count, at, false),
            false,
        ),
        10 => say_field(stdout, h263_words::cbpy(tables, bytes, count, at)),
        11 => say_field(stdout, h263_words::mvd(tables, bytes, count, at)),
        12 => say_event(stdout, h263_words::event(tables, bytes, count, at)),
        _ => say_none(stdout),
    }
}

fn ask<O: Write>(
    stdout: &mut O,
    tables: &WordTables,
    newer: &h263_words::WordTables,
    kind: u8,
    width: usize,
    bytes: &[u8],
    count: usize,
    at: usize,
)
    requires { (TablesLent tables.now newer.now) × (length bytes.now ≤ 24) }
{
    if bytes.len() * 8 < count {
        say_none(stdout);
        return;
    }
    if count < at {
        say_none(stdout);
        return;
    }
    if 7 < kind {
        ask_newer_word(stdout, newer, kind, bytes, count, at);
        return;
    }
    if kind == 7 {
        if width <= 24 {
            say_field(stdout, bits::field(bytes, count, at, width));
        } else {
            say_none(stdout);
        }
        return;
    }
    ask_word(stdout, tables, kind, bytes, count, at);
}

fn wide(x: u8) -> usize
    ensures { result ≡ x }
{
    x as usize
}

fn answer<O: Write>(
    stdout: &mut O,
    tables: &WordTables,
    newer: &h263_words::WordTables,
    record: &[u8; 32],
)
    requires { TablesLent tables.now newer.now }
{
    let size = wide(record[6]);
    if 24 < size {
        say_none(stdout);
        return;
    }
    let end = 8 + size;
    let slice: &[u8] = record;
    ask(
        stdout,
        tables,
        newer,
        record[0],
        wide(record[1]),
        &slice[8..end],
        two(record[2], record[3]),
        two(record[4], record[5]),
    );
}

// One record, and whether to go on.
pub fn one<I: Read, O: Write>(
    stdin: &mut I,
    stdout: &mut O,
    tables: &WordTables,
    newer: &h263_words::WordTables,
) -> bool
    requires { TablesLent tables.now newer.now }
{
    let mut record = [0u8; 32];
    if !checks::fills(stdin, &mut record) {
        return false;
    }
    answer(stdout, tables, newer, &record);
    true
}
