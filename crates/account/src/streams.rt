// A program's streams. After a write that nobody reads (EPIPE) nothing more is written: a program that SIGPIPE ends would stop there, and start-up code ignores that signal here.
ghost use Rattle.std.specs.Prelude.{◌≡◌, true, false, OnOk, IsErr, IfErr};
ghost use Rattle.std.specs.Io.KnownBytes.{Appends};
ghost use Rattle.text.specs.Text.{decimal};
ghost use Rattle.account.specs.Status.{IsUnwritten};

use crate::{Failure, going};
use std::io;
use std::io::{Cursor, ErrorKind, Write};

// `broken`: whether nobody reads what is written.
#[derive(Drop)]
pub struct Streams<I, O, E> {
    pub stdin: I,
    pub stdout: O,
    pub stderr: E,
    pub broken: bool,
}

// Streams of which no write has failed.
pub fn over<I, O, E>(stdin: I, stdout: O, stderr: E) -> Streams<I, O, E>
    ensures stdin { result.stdin ≡ stdin }
    ensures stdout { result.stdout ≡ stdout }
    ensures stderr { result.stderr ≡ stderr }
    ensures broken { result.broken ≡ false }
{
    Streams {
        stdin,
        stdout,
        stderr,
        broken: false,
    }
}

// Why a write failed is handed on as it is; whether nobody reads what is written is kept.
fn note(broken: &mut bool, why: io::Error) -> io::Error
    ensures { result ≡ why }
{
    *broken = why.kind() == ErrorKind::BrokenPipe;
    why
}

// Writes all of the bytes, or says why not; after a write that nobody reads nothing is written.
fn write<W: Write>(to: &mut W, broken: &mut bool, bytes: &[u8]) -> io::Result<()>
    ensures written { OnOk result (Appends (W.contents to.old) (W.contents to.new) bytes.now) }
    ensures broken { broken.old ≡ true → IsErr result }
{
    if *broken {
        return Err(io::Error::from(ErrorKind::BrokenPipe));
    }
    match to.write_all(bytes) {
        Ok(()) => Ok(()),
        Err(why) => Err(note(broken, why)),
    }
}

// To standard output: what isn't written ends the run.
pub fn put<I, O: Write, E>(streams: &mut Streams<I, O, E>, bytes: &[u8]) -> Result<(), Failure>
    ensures written { OnOk result (Appends (O.contents streams.old.stdout) (O.contents streams.new.stdout) bytes.now) }
    ensures unwritten { IfErr result IsUnwritten }
    ensures broken { streams.old.broken ≡ true → IsErr result }
    ensures stdin { streams.new.stdin ≡ streams.old.stdin }
    ensures stderr { streams.new.stderr ≡ streams.old.stderr }
{
    going::written(write(&mut streams.stdout, &mut streams.broken, bytes))
}

// To standard error.
pub fn say<I, O, E: Write>(streams: &mut Streams<I, O, E>, bytes: &[u8]) -> io::Result<()>
    ensures written { OnOk result (Appends (E.contents streams.old.stderr) (E.contents streams.new.stderr) bytes.now) }
    ensures broken { streams.old.broken ≡ true → IsErr result }
    ensures stdin { streams.new.stdin ≡ streams.old.stdin }
    ensures stdout { streams.new.stdout ≡ streams.old.stdout }
{
    write(&mut streams.stderr, &mut streams.broken, bytes)
}

// The same of a number's digits.
pub fn say_number<I, O, E: Write>(streams: &mut Streams<I, O, E>, n: u64) -> io::Result<()>
    ensures written { OnOk result (Appends (E.contents streams.old.stderr) (E.contents streams.new.stderr) (decimal n)) }
    ensures broken { streams.old.broken ≡ true → IsErr result }
    ensures stdin { streams.new.stdin ≡ streams.old.stdin }
    ensures stdout { streams.new.stdout ≡ streams.old.stdout }
{
    let mut digits = [0u8; 20];
    let count = text::put_number(n, 0, &mut digits);
    say(streams, &digits[..count])
}

// The system's words for a failure, without the number that std adds: "Is a directory", of "Is a directory (os error 21)".
fn say_reason<I, O, E: Write>(streams: &mut Streams<I, O, E>, why: io::Error)
    ensures stdin { streams.new.stdin ≡ streams.old.stdin }
    ensures stdout { streams.new.stdout ≡ streams.old.stdout }
{
    let mut cursor = Cursor::new([0u8; 256]);
    let written = write!(cursor, "{why}");
    let count = cursor.position().min(256) as usize;
    let text = cursor.into_inner();
    if written.is_ok() {
        if let Ok(all) = str::from_utf8(&text[..count]) {
            let _ = match all.split_once(" (os error ") {
                Some((words, _)) => say(streams, words.as_bytes()),
                None => say(streams, all.as_bytes()),
            };
        }
    }
}

// A line on standard error: what failed, and why. What the system says of a failure no contract can tell.
pub fn fail<I, O, E: Write>(streams: &mut Streams<I, O, E>, what: &[u8], why: Option<io::Error>)
    ensures stdin { streams.new.stdin ≡ streams.old.stdin }
    ensures stdout { streams.new.stdout ≡ streams.old.stdout }
{
    let _ = say(streams, what);
    let _ = say(streams, b": ");
    if let Some(error) = why {
        say_reason(streams, error);
    }
    let _ = say(streams, b"\n");
}
