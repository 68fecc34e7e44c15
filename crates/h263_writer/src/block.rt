// The blocks of a macroblock: their coefficients as events, LAST on the last of a block.
ghost use Rattle.std.specs.Prelude.{◌≡◌, length, drop};
ghost use Rattle.bits.specs.Appended.{WroteBits};
ghost use Rattle.layout.specs.Pattern.{presence_of};
ghost use Rattle.layout.specs.Flat.{gather, gathers};
ghost use Rattle.h263_writer.specs.Write.{events_of, events_in, block_of, blocks_of, pattern_of};
ghost use Rattle.h263_writer.specs.Sound.{waited_bits};
ghost use Rattle.h263_writer.specs.Asked.{WaitingAsked, EventsAsked, BlockAsked, BlocksAsked, PresentAsked, PatternAsked};

use bits::codeword;
use h263_words::WordTables;

// The coefficient that waited, with its run, where another follows it: LAST 0. None waited with 0.
fn waited(tables: &WordTables, before: usize, waiting: u8, out: &mut [u8], at: usize) -> usize
    requires { WaitingAsked tables.now before waiting at }
    ensures { WroteBits (waited_bits before waiting) out.old at out.new result }
{
    if waiting == 0 {
        return at;
    }
    codeword::append(
        out,
        at,
        h263_words::event_codeword(tables, 0, before, waiting),
    )
}

// The coefficients of a block from one of its levels on. Each waits until it is known whether another follows.
fn events(tables: &WordTables, levels: &[u8], from: usize, out: &mut [u8], at: usize) -> usize
    requires { EventsAsked tables.now levels.now from at }
    ensures { WroteBits (events_of (gather 0 (drop from levels.now))) out.old at out.new result }
{
    let end = levels::zeros_from(levels);
    let mut waiting: u8 = 0;
    let mut before: usize = 0;
    let mut run: usize = 0;
    let mut place = at;
    for k in from..end {
        let code = levels[k];
        if code == 0 {
            run += 1;
            continue;
        }
        place = waited(tables, before, waiting, out, place);
        waiting = code;
        before = run;
        run = 0;
    }
    if waiting == 0 {
        return place;
    }
    codeword::append(
        out,
        place,
        h263_words::event_codeword(tables, 1, before, waiting),
    )
}

// One block of 64 levels: an INTRA one's DC code, and events.
fn block(tables: &WordTables, levels: &[u8], intra: bool, out: &mut [u8], at: usize) -> usize
    requires { BlockAsked tables.now levels.now intra at }
    ensures { WroteBits (block_of intra (gather 0 levels.now)) out.old at out.new result }
{
    if intra {
        let after = bits::append(out, at, 8, levels[0] as u32);
        return events(tables, levels, 1, out, after);
    }
    events(tables, levels, 0, out, at)
}

// The six blocks of a macroblock.
pub fn blocks(tables: &WordTables, levels: &[u8], intra: bool, out: &mut [u8], at: usize) -> usize
    requires { BlocksAsked tables.now levels.now intra at }
    ensures { WroteBits (blocks_of intra (gathers 6 levels.now)) out.old at out.new result }
{
    let mut place = at;
    for b in 0..6 {
        let a = b * 64;
        place = block(tables, &levels[a..a + 64], intra, out, place);
    }
    place
}

// Whether a block has an event, as a number: an INTRA one's DC code is none.
fn present(levels: &[u8], intra: bool) -> usize
    requires { PresentAsked levels.now intra }
    ensures { result ≡ presence_of (events_in intra (gather 0 levels.now)) }
{
    if intra {
        return levels::present(&levels[1..64]);
    }
    levels::present(levels)
}

// The pattern of a macroblock's 384 levels: CBPY, then CBPC.
pub fn pattern(levels: &[u8], intra: bool) -> usize
    requires { PatternAsked levels.now intra }
    ensures { result ≡ pattern_of intra (gathers 6 levels.now) }
{
    let a = present(&levels[0..64], intra);
    let b = present(&levels[64..128], intra);
    let c = present(&levels[128..192], intra);
    let d = present(&levels[192..256], intra);
    let e = present(&levels[256..320], intra);
    let f = present(&levels[320..384], intra);
    a * 32 + b * 16 + c * 8 + d * 4 + e * 2 + f
}
