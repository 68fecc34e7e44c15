// What a program's run met and how it ends, with the status of that; what it says of blocks that led to no picture; an input that fails told from its end.
#![tactic(auto)]

ghost use Rattle.std.specs.Prelude.{◌≡◌, ◌<◌, ◌^◌, true, false};
ghost use Rattle.io.specs.Counts.{IsPrefixLen};
ghost use Rattle.account.specs.Status.{done_status, status_of};
ghost use Rattle.std.specs.Process.{exit_status};

use crate::streams::Streams;
use std::env::{Env, FillError};
use std::io;
use std::io::Write;
use std::process::ExitCode;

pub mod blocks;
pub mod going;
pub mod idle;
pub mod input;
pub mod remarks;
pub mod streams;

// A run whose input came to its end: whether something was cut, and how many pictures, or data bits, came out.
#[derive(Clone, Copy, PartialEq, Eq, Debug)]
pub struct Ended {
    pub cut: bool,
    pub count: u64,
}

// Why another run ended: its words name nothing; the input can't be read; the output can't be written.
#[derive(Clone, Copy)]
pub enum Failure {
    Misnamed,
    Unread(io::Error),
    Unwritten(io::Error),
}

fn done(cut: bool, pictures: u64) -> u8
    ensures { result ≡ done_status cut pictures }
{
    if pictures == 0 {
        return 2;
    }
    if cut {
        return 1;
    }
    0
}

// 0 where all that came in went out whole, 1 where something was cut, 2 where nothing came out or could, 3 where the output can't be written.
#[tactic(auto, unfolding(crate::specs::Status::status_of))]
pub fn status(end: Result<Ended, Failure>) -> u8
    ensures { result ≡ status_of end }
{
    match end {
        Ok(run) => done(run.cut, run.count),
        Err(Failure::Misnamed) => 2,
        Err(Failure::Unread(_)) => 2,
        Err(Failure::Unwritten(_)) => 3,
    }
}

// The status that the process ends with.
#[tactic(auto, unfolding(crate::specs::Status::status_of))]
pub fn tell(end: Result<Ended, Failure>) -> ExitCode
    ensures { exit_status result ≡ status_of end }
{
    ExitCode::from(status(end))
}

// The same of a run over its streams: 141, as a shell has it of SIGPIPE, where nobody reads what is written.
#[tactic(auto, unfolding(crate::specs::Status::status_of))]
pub fn tell_over<I, O, E>(streams: &Streams<I, O, E>, end: Result<Ended, Failure>) -> ExitCode
    ensures broken { streams.now.broken ≡ true → exit_status result ≡ 141 }
    ensures whole { streams.now.broken ≡ false → exit_status result ≡ status_of end }
{
    if streams.broken {
        return ExitCode::from(141);
    }
    tell(end)
}

// Which clip block n chose, on standard error; nothing where that is 0, which no clip is.
pub fn say_chosen<I, O, E: Write>(streams: &mut Streams<I, O, E>, n: u64, clip: u16)
    ensures { result ≡ tt }
{
    if clip != 0 {
        let mut text = [0u8; 128];
        let count = remarks::chosen(n, clip, &mut text);
        let _ = streams::say(streams, &text[..count]);
    }
}

// Puts word i at the start of `word` and answers its length, or 0 where it is missing or longer than that.
pub fn arg(env: &impl Env, i: usize, word: &mut [u8]) -> usize
    ensures { IsPrefixLen result word.new }
{
    match env.arg(i, word) {
        Ok(count) => count,
        Err(_) => 0,
    }
}

// How many words there are, the program's own name among them: no contract can say how many a program is given.
pub fn arg_count(env: &impl Env) -> usize
    ensures { result < 2 ^ 64 }
{
    let mut word = [0u8; 1];
    for i in 0..usize::MAX {
        if let Err(FillError::NotPresent) = env.arg(i, &mut word) {
            return i;
        }
    }
    usize::MAX
}
