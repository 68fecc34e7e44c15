// H.263's tables of codewords, MCBPC, CBPY, MVD and TCOEF: read and written.
#![tactic(auto)]

ghost use Rattle.std.specs.Prelude.{◌≡◌, ◌+◌, ◌*◌, ◌/◌, ◌≤◌, ◌<◌, ltb, get_or};
ghost use Rattle.laws.specs.Choice.{pick};
ghost use Rattle.bits.specs.Bits.{bits_left};
ghost use Rattle.bits.specs.Code.{word as word_read, word_of};
ghost use Rattle.bits.specs.Answer.{Within, as_field};
ghost use Rattle.bits.specs.Codewords.{codeword_of, Writes};
ghost use Rattle.layout.specs.Value.{coefficient as coefficient_of};
ghost use Rattle.h263_words.specs.Tables.{mcbpc_of, cbpy as cbpy_table, mvd as mvd_table};
ghost use Rattle.h263_words.specs.Words.{event_read, tcoef_of};
ghost use Rattle.h263_words.specs.Answer.{as_event};
ghost use Rattle.h263_words.specs.Lookup.{Tables};
ghost use Rattle.h263_words.specs.Asked.{KindAsked, EventAsked};

use bits::codeword::Codeword;
use bits::{FieldRead, codeword, settled};
use refusals::{Reason, Refusal, Table};

mod lookup;

use lookup::TABLES;

// The array that every function here looks up, and where its parts begin (see TABLES). Make it once, high up, and lend it down.
pub type WordTables = [u16; 4418];

const MCBPC_INTRA: usize = 0;

const MCBPC_INTER: usize = 512;

const CBPY: usize = 1024;

const MVD: usize = 1088;

const TCOEF: usize = 1600;

const INTRA_WORDS: usize = 2240;

const INTER_WORDS: usize = 2265;

const CBPY_WORDS: usize = 2290;

const MVD_WORDS: usize = 2306;

const EVENT_WORDS: usize = 2370;

pub fn tables() -> WordTables
    ensures { Tables result }
{
    TABLES
}

// A codeword of TCOEF, with its sign or an escape's fields: LAST, RUN and a level in eight bits, and the next place.
#[derive(Clone, Copy, PartialEq, Eq, Debug)]
pub enum EventRead {
    Event(u8, u8, u8, usize),
    Refused(Refusal),
}

// MCBPC at `at`, in an INTRA picture or in an INTER one: 4 times the type and CBPC, or 24 for stuffing. INTER4V words are words.
pub fn mcbpc(
    tables: &WordTables,
    bytes: &[u8],
    count: usize,
    at: usize,
    intra: bool,
) -> FieldRead<u32>
    requires { (Tables tables.now) × (Within bytes.now count at) }
    ensures { as_field bytes.now count result ≡ word_read (mcbpc_of intra) (bits_left bytes.now count at) at }
{
    let number = (bits::window(bytes, at) / 32768) as usize;
    if intra {
        return settled::word(Table::McbpcIntra, tables[MCBPC_INTRA + number], count, at);
    }
    settled::word(Table::McbpcInter, tables[MCBPC_INTER + number], count, at)
}

// CBPY at `at`, 0 to 15: the pattern of an INTRA macroblock.
pub fn cbpy(tables: &WordTables, bytes: &[u8], count: usize, at: usize) -> FieldRead<u32>
    requires { (Tables tables.now) × (Within bytes.now count at) }
    ensures { as_field bytes.now count result ≡ word_read cbpy_table (bits_left bytes.now count at) at }
{
    let number = (bits::window(bytes, at) / 262144) as usize;
    settled::word(Table::Cbpy, tables[CBPY + number], count, at)
}

// Which entry is for bits of this number: by all of them where it is small, and after those by all but the last five.
fn entry_place(small: usize, number: usize) -> usize
    requires { small + number / 32 < 4418 }
    ensures { result ≡ pick (ltb number small) number (small + number / 32) }
{
    if number < small {
        return number;
    }
    small + number / 32
}

// That entry, of those that begin at `start`.
fn looked_up(tables: &WordTables, small: usize, start: usize, number: usize) -> u16
    requires { start + small + number / 32 < 4418 }
    ensures { result ≡ get_or tables.now (pick (ltb number small) (start + number) (start + small + number / 32)) 0 }
{
    tables[start + entry_place(small, number)]
}

// A component of MVD at `at`: 32 more than the difference that Table 11 prints first, in half samples.
pub fn mvd(tables: &WordTables, bytes: &[u8], count: usize, at: usize) -> FieldRead<u32>
    requires { (Tables tables.now) × (Within bytes.now count at) }
    ensures { as_field bytes.now count result ≡ word_read mvd_table (bits_left bytes.now count at) at }
{
    let number = (bits::window(bytes, at) / 2048) as usize;
    let e = looked_up(tables, 256, MVD, number);
    settled::word(Table::Mvd263, e, count, at)
}

// The event at `at`. One window holds the longest codeword, and the bits left are tested once.
pub fn event(tables: &WordTables, bytes: &[u8], count: usize, at: usize) -> EventRead
    requires { (Tables tables.now) × (Within bytes.now count at) }
    ensures { as_event bytes.now count result ≡ event_read (bits_left bytes.now count at) at }
{
    let bits = bits::window(bytes, at);
    let e = looked_up(tables, 512, TCOEF, (bits / 4096) as usize) as u32;
    let size = (e % 32) as usize;
    let meaning = e / 32;
    if count - at < size {
        return EventRead::Refused(Refusal {
            reason: Reason::BitsEnd,
            place: at,
        });
    }
    let after = 24 - size;
    let taken = bits >> after;
    // No codeword, or an escape: most are neither.
    if meaning < 2 {
        if meaning == 0 {
            return EventRead::Refused(Refusal {
                reason: Reason::NoCodeword(Table::Tcoef263),
                place: at,
            });
        }
        let code = taken % 256;
        if code % 128 == 0 {
            return EventRead::Refused(Refusal {
                reason: Reason::Forbidden,
                place: at,
            });
        }
        return EventRead::Event(
            (taken / 16384 % 2) as u8,
            (taken / 256 % 64) as u8,
            code as u8,
            at + size,
        );
    }
    let event = meaning - 1;
    let last = (event / 1024) as u8;
    let run = (event / 16 % 64) as u8;
    let level = event % 16;
    if taken % 2 == 0 {
        EventRead::Event(last, run, level as u8, at + size)
    } else {
        EventRead::Event(last, run, (256 - level) as u8, at + size)
    }
}

// The codeword of MCBPC: 4 times the type and CBPC, or 24 for stuffing.
pub fn mcbpc_codeword(tables: &WordTables, intra: bool, meaning: usize) -> Codeword
    requires { KindAsked tables.now intra meaning }
    ensures { Writes (word_of (mcbpc_of intra) meaning) result }
{
    if intra {
        return codeword::spelt(tables, INTRA_WORDS + meaning);
    }
    codeword::spelt(tables, INTER_WORDS + meaning)
}

// The codeword of CBPY: the pattern of an INTRA macroblock.
pub fn cbpy_codeword(tables: &WordTables, pattern: usize) -> Codeword
    requires { (Tables tables.now) × (pattern ≤ 15) }
    ensures { Writes (word_of cbpy_table pattern) result }
{
    codeword::spelt(tables, CBPY_WORDS + pattern)
}

// The codeword of a component of MVD: 32 more than the difference that Table 11 prints first.
pub fn mvd_codeword(tables: &WordTables, difference: usize) -> Codeword
    requires { (Tables tables.now) × (difference ≤ 63) }
    ensures { Writes (word_of mvd_table difference) result }
{
    codeword::spelt(tables, MVD_WORDS + difference)
}

fn escape(last: usize, run: usize, code: u8) -> Codeword
    requires { (last ≤ 1) × (run ≤ 63) }
    ensures { result ≡ codeword_of 22 (98304 + last * 16384 + run * 256 + code) }
{
    Codeword {
        width: 22,
        bits: 98304 + (last as u32) * 16384 + (run as u32) * 256 + (code as u32),
    }
}

// The codeword of an event with its sign: a table code wherever TCOEF has one, else an escape.
pub fn event_codeword(tables: &WordTables, last: usize, run: usize, code: u8) -> Codeword
    requires { EventAsked tables.now last run code }
    ensures { Writes (tcoef_of last (coefficient_of run code)) result }
{
    let minus = layout::code::sign(code);
    let level = layout::code::magnitude(code);
    if 16 <= level {
        return escape(last, run, code);
    }
    let event = (last * 64 + run) * 16 + level;
    let word = codeword::spelt(tables, EVENT_WORDS + event);
    let width = word.width;
    if width == 0 {
        return escape(last, run, code);
    }
    let number = word.bits;
    Codeword {
        width: width + 1,
        bits: number * 2 + minus,
    }
}
