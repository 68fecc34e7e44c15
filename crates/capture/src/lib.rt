// A recording of the raw line, with the error correction frames of H.261 5.4: where they lock, and what each gives.
#![tactic(auto)]

ghost use Rattle.std.specs.Prelude.{◌≡◌, Err, ◌+◌, ◌*◌, ◌/◌, ◌≤◌, ◌<◌, eqb, length};
ghost use Rattle.refusals.specs.Number.{refusal};
ghost use Rattle.bits.specs.Bits.{bit_num, bits_from, bits_left};
ghost use Rattle.bits.specs.Write.{bytes_with, started_bytes};
ghost use Rattle.capture.specs.Capture.{pattern, framed_by, lock_from};
ghost use Rattle.capture.specs.Step.{as_lock, Steppable, outcome_at, came_of, out_after, tally_after, places_after};
ghost use Rattle.capture.specs.Replay.{Lockable, LockedDoes, ReplayDoes};

use bch::Mending;
use refusals::{Reason, Refusal};

// ---- lock

fn bit(capture: &[u8], at: usize) -> u32
    requires { at < 8 * length capture.now }
    ensures { result ≡ bit_num capture.now at }
{
    let after = 7 - at % 8;
    (u32::from(capture[at / 8]) >> after) % 2
}

// Whether 24 framing bits from `at` on read the pattern three times.
fn framed(capture: &[u8], count: usize, at: usize) -> bool
    requires { (count ≤ 8 * length capture.now) × (at + 11776 < count) }
    ensures { result ≡ framed_by pattern (bits_left capture.now count at) }
{
    for k in 0..24 {
        let after = 23 - k;
        if bit(capture, at + 512 * k) != (1776411u32 >> after) % 2 {
            return false;
        }
    }
    true
}

// "Lock is the earliest bit from which 24 framing bits, 512 bits apart, read the pattern three times from S1", from `from` on.
pub fn lock(capture: &[u8], count: usize, from: usize) -> Option<usize>
    requires { count ≤ 8 * length capture.now }
    ensures { as_lock result ≡ lock_from (bits_left capture.now count from) from }
{
    // Not `find` over the places with room: its closure needs a `requires` and an `ensures` of its own, and is no plainer.
    for at in from..count {
        if count - at <= 11776 {
            return None;
        }
        if framed(capture, count, at) {
            return Some(at);
        }
    }
    None
}

// ---- a frame

#[derive(Clone, Copy, PartialEq, Eq)]
pub enum Came {
    Data,
    Fill,
    Unmended,
}

// The 512 bits from `at` on, in 64 bytes.
fn gathered(capture: &[u8], at: usize) -> [u8; 64]
    requires { (at + 512 ≤ 8 * length capture.now) × (at + 512 < 18446744073709551616) }
    ensures { bits_from result 0 512 ≡ bits_from capture.now at 512 }
{
    let mut frame = [0u8; 64];
    for i in 0..21 {
        let three = bits::window(capture, at + 24 * i);
        frame[3 * i] = (three / 65536) as u8;
        frame[3 * i + 1] = (three / 256 % 256) as u8;
        frame[3 * i + 2] = (three % 256) as u8;
    }
    frame[63] = (bits::window(capture, at + 504) / 65536) as u8;
    frame
}

// The 492 data bits of a frame to `to`.
fn put_data(frame: &[u8; 64], out: &mut [u8], to: usize)
    requires { (to + 492 ≤ 8 * length out.old) × (to + 492 < 18446744073709551616) }
    ensures { out.new ≡ bytes_with out.old to (bits_from frame.now 2 492) }
{
    bits::put(out, to, 12, bits::window(frame, 2) / 4096);
    for i in 0..20 {
        bits::put(out, to + 12 + 24 * i, 24, bits::window(frame, 14 + 24 * i));
    }
}

// Fi, "the fill indicator", of a mended frame.
fn is_fill(frame: &[u8; 64]) -> bool
    ensures { result ≡ eqb (bit_num frame.now 1) 0 }
{
    frame[0] / 64 % 2 == 0
}

// One frame: mended, and its data bits put to `to` if it has any. Its framing bit is not looked at.
pub fn step(steps: &[u32; 256], capture: &[u8], at: usize, out: &mut [u8], to: usize) -> Came
    requires { Steppable steps.now capture.now at out.old to }
    ensures value { result ≡ came_of (outcome_at capture.now at) }
    ensures out_after { out.new ≡ out_after out.old to (outcome_at capture.now at) }
{
    let line = gathered(capture, at);
    let mut frame = line;
    let mending = bch::mend(steps, &mut frame);
    match mending {
        Mending::Unmended => Came::Unmended,
        Mending::Mended => {
            if is_fill(&frame) {
                return Came::Fill;
            }
            put_data(&frame, out, to);
            Came::Data
        }
    }
}

// ---- a capture

// How many data bits and how many places were written.
#[derive(Clone, Copy, PartialEq, Eq)]
pub struct Tally {
    pub bits: usize,
    pub places: usize,
}

// What a frame that came so adds; its place is reported if it is not mended.
fn counted(came: Came, at: usize, places: &mut [u64], tally: Tally) -> Tally
    requires { (tally.places < length places.old) × (came ≡ Came.Data → tally.bits + 492 < 18446744073709551616) }
    ensures value { result ≡ tally_after came tally }
    ensures places_after { places.new ≡ places_after came at tally places.old }
{
    let bits = tally.bits;
    let told = tally.places;
    match came {
        Came::Data => Tally {
            bits: bits + 492,
            places: told,
        },
        Came::Fill => tally,
        Came::Unmended => {
            places[told] = at as u64;
            Tally {
                bits,
                places: told + 1,
            }
        }
    }
}

// The place of lock; how many data bits, and how many places, were written.
#[derive(Clone, Copy, PartialEq, Eq)]
pub struct Replayed {
    pub lock: usize,
    pub bits: usize,
    pub places: usize,
}

fn refused(reason: Reason) -> Result<Replayed, Refusal>
    ensures { result ≡ Err (refusal reason 0) }
{
    Err(Refusal { reason, place: 0 })
}

// "Frames count from there and lock holds to the end; a cut last frame is dropped and reported."
fn from_lock(
    capture: &[u8],
    count: usize,
    lock: usize,
    out: &mut [u8],
    places: &mut [u64],
) -> Result<Replayed, Refusal>
    requires { Lockable capture.now count lock out.old places.old }
    ensures { LockedDoes capture.now count lock out.old places.old result out.new places.new }
{
    let steps = bch::byte_steps();
    let mut tally = Tally { bits: 0, places: 0 };
    let whole = (count - lock) / 512;
    for n in 0..whole {
        let at = lock + 512 * n;
        let came = step(&steps, capture, at, out, tally.bits);
        tally = counted(came, at, places, tally);
    }
    let cut = lock + 512 * whole;
    if cut < count {
        tally = counted(Came::Unmended, cut, places, tally);
    }
    Ok(Replayed {
        lock,
        bits: tally.bits,
        places: tally.places,
    })
}

// How many bytes so many bits start.
fn started(count: usize) -> usize
    ensures { result ≡ started_bytes count }
{
    count / 8 + (count % 8 + 7) / 8
}

// A recording of the raw line in `count` bits: its data bits into `out`, which has the capture's length, the places of the frames that are not mended, and
// of a cut last one, into `places`, which has an entry for each frame that the capture has room for.
pub fn replay(
    capture: &[u8],
    count: usize,
    out: &mut [u8],
    places: &mut [u64],
) -> Result<Replayed, Refusal>
    ensures { ReplayDoes capture.now count out.old places.old result out.new places.new }
{
    if out.len() != capture.len() {
        return refused(Reason::Length);
    }
    if places.len() != capture.len() / 64 + 1 {
        return refused(Reason::Length);
    }
    if capture.len() < started(count) {
        return refused(Reason::Count);
    }
    let found = lock(capture, count, 0);
    match found {
        Some(place) => from_lock(capture, count, place, out, places),
        None => refused(Reason::NoLock),
    }
}
