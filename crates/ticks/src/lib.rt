// The tick of a finished picture, and its due time.
#![tactic(auto)]

ghost use Rattle.std.specs.Prelude.{◌≡◌, ◌+◌, ◌≤◌, eqb};
ghost use Rattle.laws.specs.Choice.{both};
ghost use Rattle.ticks.specs.Tick.{tick_number, is_exact, tick_as, tr_difference, tick_above, cut_tick, first_tick, later_tick};
ghost use Rattle.ticks.specs.Due.{seconds_of, due_of};

// The tick that all pictures give, or the least that it can be.
#[derive(Clone, Copy, PartialEq, Eq, Debug)]
pub enum Tick {
    Exact(u32),
    Estimated(u32),
}

// Seconds.
#[derive(Clone, Copy, PartialEq, Debug)]
pub enum DueTime {
    Exact(f64),
    Estimated(f64),
}

// ---- ticks

pub fn number(tick: Tick) -> u32
    ensures { result ≡ tick_number tick }
{
    match tick {
        Tick::Exact(n) => n,
        Tick::Estimated(n) => n,
    }
}

fn is_exact(tick: Tick) -> bool
    ensures { result ≡ is_exact tick }
{
    match tick {
        Tick::Exact(_) => true,
        Tick::Estimated(_) => false,
    }
}

fn tick_as(exact: bool, n: u32) -> Tick
    ensures { result ≡ tick_as exact n }
{
    if exact {
        return Tick::Exact(n);
    }
    Tick::Estimated(n)
}

// From a tick to the least one above it with this TR.
fn difference(modulus: u32, before: u32, tr: u32) -> u32
    requires { 1 ≤ modulus }
    ensures { result ≡ tr_difference modulus before tr }
{
    let up = modulus - before % modulus;
    let between = (tr as u64 + up as u64) % (modulus as u64);
    if between == 0 {
        return modulus; // "where 0 counts as 32"
    }
    between as u32
}

fn cut(n: u64) -> u32
    ensures { result ≡ cut_tick n }
{
    if n < 4294967295 {
        return n as u32;
    }
    4294967295
}

fn above(modulus: u32, last: u32, tr: u32) -> u32
    requires { 1 ≤ modulus }
    ensures { result ≡ cut_tick (tick_above modulus last tr) }
{
    cut(last as u64 + difference(modulus, last, tr) as u64)
}

// Of the first finished picture.
pub fn first(picture: u32, tr: u32) -> Tick
    ensures { result ≡ first_tick picture tr }
{
    tick_as(picture == 0, tr)
}

// Whether no number was skipped, and none before.
fn stays_exact(before: u32, last: Tick, picture: u32) -> bool
    ensures { result ≡ both (is_exact last) (eqb picture (before + 1)) }
{
    if is_exact(last) {
        return picture as u64 == before as u64 + 1;
    }
    false
}

// Of a picture that is finished after the picture `before`, whose tick is `last`.
pub fn later(modulus: u32, before: u32, last: Tick, picture: u32, tr: u32) -> Tick
    requires { 1 ≤ modulus }
    ensures { result ≡ later_tick modulus before last picture tr }
{
    tick_as(
        stays_exact(before, last, picture),
        above(modulus, number(last), tr),
    )
}

// ---- due times

// "Tick 3750 gives exactly 125.125."
const SECONDS_AT_3750: f64 = 125.125;

// Both numbers convert exactly (`converted_exactly`), whichever the tick is, so that the quotient alone is rounded (`rounded_once`).
fn seconds(tick: u32) -> f64
    ensures value { result ≡ seconds_of tick }
    ensures exact { tick ≡ 3750 → result ≡ SECONDS_AT_3750 }
{
    let thousandths = 1001 * (tick as u64);
    (thousandths as f64) / 30000.0
}

pub fn due(tick: Tick) -> DueTime
    ensures { result ≡ due_of tick }
{
    match tick {
        Tick::Exact(n) => DueTime::Exact(seconds(n)),
        Tick::Estimated(n) => DueTime::Estimated(seconds(n)),
    }
}
