// Due times: a line "TICK exact BITS" or "TICK estimated BITS" for each record of a byte, 0 for an exact tick, and a tick of four bytes, high byte first, with the time's 64
// bits as a whole number.
use std::io::{Read, Write};
use ticks::{DueTime, Tick};

// What is no number has no bits; every due time is one.
fn bits(seconds: f64) -> u64 {
    if seconds == seconds {
        return f64::to_bits(seconds);
    }
    0
}

fn tick_of(kind: u8, number: u32) -> Tick {
    if kind == 0 {
        return Tick::Exact(number);
    }
    Tick::Estimated(number)
}

fn say_due<O: Write>(stdout: &mut O, due: DueTime) {
    match due {
        DueTime::Exact(seconds) => {
            checks::say(stdout, b" exact");
            checks::say_number(stdout, bits(seconds));
        }
        DueTime::Estimated(seconds) => {
            checks::say(stdout, b" estimated");
            checks::say_number(stdout, bits(seconds));
        }
    }
}

fn answer<O: Write>(stdout: &mut O, tick: Tick) {
    checks::say_decimal(stdout, ticks::number(tick) as u64);
    say_due(stdout, ticks::due(tick));
    checks::say(stdout, b"\n");
}

// One tick, and whether to go on.
pub fn one<I: Read, O: Write>(stdin: &mut I, stdout: &mut O) -> bool {
    let mut record = [0u8; 5];
    if !checks::fills(stdin, &mut record) {
        return false;
    }
    let tick = checks::picture_of(record[1], record[2], record[3], record[4]);
    answer(stdout, tick_of(record[0], tick));
    true
}
