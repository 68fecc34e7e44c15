// What is shown between two finished pictures, a frame for each tick.
#![tactic(auto)]

ghost use Rattle.std.specs.Prelude.{◌≡◌, ◌+◌, ◌-◌, eqb};
ghost use Rattle.pace.specs.Between.{kept_step, ticks_between, frames_between};

use standing::{Last, Receiver, Standing};
use ticks::Tick;

// How many frames: the last picture again, or grey.
#[derive(Clone, Copy, PartialEq, Eq)]
pub enum Between {
    Repeated(u32),
    Grey(u32),
}

fn follows(last: u32, picture: u32) -> bool
    ensures { result ≡ eqb picture (last + 1) }
{
    picture as u64 == last as u64 + 1
}

fn kept_step(standing: Standing, picture: u32) -> bool
    ensures { result ≡ kept_step standing picture }
{
    match standing {
        Standing::InStep(last) => follows(last, picture),
        Standing::Catching => false,
        Standing::Lost => false,
    }
}

fn less(next: u32, last: u32) -> u32
    ensures { result ≡ next - (last + 1) }
{
    if last < next {
        return next - last - 1;
    }
    0
}

fn ticks_between(last: Last, tick: Tick) -> u32
    ensures { result ≡ ticks_between last tick }
{
    let holder = last.holder;
    let before = last.tick;
    if standing::any_finished(holder) {
        return less(ticks::number(tick), ticks::number(before));
    }
    0
}

// Before this picture, by the receiver as it stood before the block that finished it.
pub fn frames_between(receiver: Receiver, picture: u32, tick: Tick) -> Between
    ensures { result ≡ frames_between receiver picture tick }
{
    let progress = receiver.progress;
    let standing = progress.standing;
    let last = receiver.last;
    let count = ticks_between(last, tick);
    if kept_step(standing, picture) {
        return Between::Repeated(count);
    }
    Between::Grey(count)
}
