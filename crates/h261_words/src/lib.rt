// H.261's Tables 1 to 5: codewords read and written.
#![tactic(auto)]

ghost use Rattle.std.specs.Prelude.{◌≡◌, ◌+◌, ◌*◌, ◌/◌, ◌%◌, ◌≤◌, ◌<◌, get_or};
ghost use Rattle.bits.specs.Bits.{bits_left};
ghost use Rattle.bits.specs.Code.{word as word_read, word_of};
ghost use Rattle.bits.specs.Codewords.{codeword_of, Writes};
ghost use Rattle.bits.specs.Settled.{part_place};
ghost use Rattle.bits.specs.Answer.{Within, as_field};
ghost use Rattle.laws.specs.Choice.{pick};
ghost use Rattle.h261_words.specs.Tables.{table1, table2, table3, table4, end_of_block, first_table5, later_table5};
ghost use Rattle.layout.specs.Value.{coefficient as coefficient_of};
ghost use Rattle.h261_words.specs.Words.{coefficient_read, tcoeff_of};
ghost use Rattle.h261_words.specs.Answer.{as_coefficient};
ghost use Rattle.layout.specs.Sendable.{Sendable};
ghost use Rattle.h261_words.specs.Written.{MeaningAsked};
ghost use Rattle.h261_words.specs.Lookup.{Tables, parts_from, first_at, later_at};

use bits::codeword::Codeword;
use bits::{FieldRead, codeword};
use refusals::{Reason, Refusal, Table};

pub mod kind;
mod lookup;
mod table;

use lookup::TABLES;
use table::word;

// The array that every function here looks up, and where its parts begin (see TABLES). Make it once, high up, and lend it down.
pub type WordTables = [u16; 7153];

const SMALL_NUMBERS: usize = 306;

const FIRST_COEFFICIENT: usize = 434;

const LATER_COEFFICIENT: usize = 690;

const MBA_WORDS: usize = 946;

const MTYPE_WORDS: usize = 982;

const MVD_WORDS: usize = 993;

const CBP_WORDS: usize = 1025;

const PAIR_WORDS: usize = 1089;

pub fn tables() -> WordTables
    ensures { Tables result }
{
    TABLES
}

// A codeword of Table 5, with its sign or an escape's fields: a run of zeros and a level in eight bits, or EOB.
#[derive(Clone, Copy, PartialEq, Eq, Debug)]
pub enum CoefficientRead {
    Coefficient(u8, u8, usize),
    EndOfBlock(usize),
    Refused(Refusal),
}

// MBA at `at`: a step of 1 to 33, 34 for stuffing, 35 for a start code.
pub fn mba(tables: &WordTables, bytes: &[u8], count: usize, at: usize) -> FieldRead<u32>
    requires { (Tables tables.now) × (Within bytes.now count at) }
    ensures { as_field bytes.now count result ≡ word_read table1 (bits_left bytes.now count at) at }
{
    word::<table::Mba>(tables, bytes, count, at)
}

// MTYPE at `at`: 1 to 10, in the order of document 01's table.
pub fn mtype(tables: &WordTables, bytes: &[u8], count: usize, at: usize) -> FieldRead<u32>
    requires { (Tables tables.now) × (Within bytes.now count at) }
    ensures { as_field bytes.now count result ≡ word_read table2 (bits_left bytes.now count at) at }
{
    word::<table::Mtype>(tables, bytes, count, at)
}

// A component of MVD at `at`: 16 more than the difference that Table 3 prints first.
pub fn mvd(tables: &WordTables, bytes: &[u8], count: usize, at: usize) -> FieldRead<u32>
    requires { (Tables tables.now) × (Within bytes.now count at) }
    ensures { as_field bytes.now count result ≡ word_read table3 (bits_left bytes.now count at) at }
{
    word::<table::Mvd>(tables, bytes, count, at)
}

// CBP at `at`: 1 to 63.
pub fn cbp(tables: &WordTables, bytes: &[u8], count: usize, at: usize) -> FieldRead<u32>
    requires { (Tables tables.now) × (Within bytes.now count at) }
    ensures { as_field bytes.now count result ≡ word_read table4 (bits_left bytes.now count at) at }
{
    word::<table::Cbp>(tables, bytes, count, at)
}

// The entry of Table 5 for 13 bits of this number.
fn looked_up(tables: &WordTables, number: u32, first: bool) -> u16
    requires { number < 8192 }
    ensures { result ≡ get_or tables.now (part_place (parts_from (pick first first_at later_at)) number) 0 }
{
    let x = number as usize;
    if x < 128 {
        return tables[SMALL_NUMBERS + x];
    }
    if first {
        return tables[FIRST_COEFFICIENT + x / 32];
    }
    tables[LATER_COEFFICIENT + x / 32]
}

// The coefficient at `at`, or EOB; `first` for the first coefficient of a block that is not INTRA. One window holds the longest codeword, and the
// bits left are tested once.
pub fn coefficient(
    tables: &WordTables,
    bytes: &[u8],
    count: usize,
    at: usize,
    first: bool,
) -> CoefficientRead
    requires { (Tables tables.now) × (Within bytes.now count at) }
    ensures { as_coefficient bytes.now count result ≡ coefficient_read (pick first first_table5 later_table5) (bits_left bytes.now count at) at }
{
    let bits = bits::window(bytes, at);
    let e = looked_up(tables, bits / 2048, first);
    let size = (e % 32) as usize;
    let meaning = e / 32;
    if count - at < size {
        return CoefficientRead::Refused(Refusal {
            reason: Reason::BitsEnd,
            place: at,
        });
    }
    if meaning == 0 {
        return CoefficientRead::Refused(Refusal {
            reason: Reason::NoCodeword(Table::Tcoeff),
            place: at,
        });
    }
    if meaning == 1 {
        return CoefficientRead::EndOfBlock(at + size);
    }
    let after = 24 - size;
    let taken = bits >> after;
    if meaning == 513 {
        let code = taken % 256;
        if code % 128 == 0 {
            return CoefficientRead::Refused(Refusal {
                reason: Reason::Forbidden,
                place: at,
            });
        }
        return CoefficientRead::Coefficient((taken / 256 % 64) as u8, code as u8, at + size);
    }
    let pair = meaning - 1;
    let level = pair % 16;
    if taken % 2 == 0 {
        CoefficientRead::Coefficient((pair / 16) as u8, level as u8, at + size)
    } else {
        CoefficientRead::Coefficient((pair / 16) as u8, (256 - level) as u8, at + size)
    }
}

// The codeword of MBA: a step of 1 to 33, 34 for stuffing, 35 for a start code. It and the next three are one call each of what they share: a function over
// `Codewords` would be no plainer.
pub fn mba_codeword(tables: &WordTables, step: usize) -> Codeword
    requires { MeaningAsked tables.now 35 step }
    ensures { Writes (word_of table1 step) result }
{
    codeword::spelt(tables, MBA_WORDS + step)
}

// The codeword of MTYPE, 1 to 10.
pub fn mtype_codeword(tables: &WordTables, kind: usize) -> Codeword
    requires { MeaningAsked tables.now 10 kind }
    ensures { Writes (word_of table2 kind) result }
{
    codeword::spelt(tables, MTYPE_WORDS + kind)
}

// The codeword of a component of MVD: 16 more than the difference that Table 3 prints first.
pub fn mvd_codeword(tables: &WordTables, difference: usize) -> Codeword
    requires { (Tables tables.now) × (difference ≤ 31) }
    ensures { Writes (word_of table3 difference) result }
{
    codeword::spelt(tables, MVD_WORDS + difference)
}

// The codeword of CBP, 1 to 63.
pub fn cbp_codeword(tables: &WordTables, pattern: usize) -> Codeword
    requires { MeaningAsked tables.now 63 pattern }
    ensures { Writes (word_of table4 pattern) result }
{
    codeword::spelt(tables, CBP_WORDS + pattern)
}

// EOB.
pub fn end_codeword() -> Codeword
    ensures { Writes (word_of later_table5 end_of_block) result }
{
    Codeword { width: 2, bits: 2 }
}

fn escape(run: usize, code: u8) -> Codeword
    requires { run ≤ 63 }
    ensures { result ≡ codeword_of 20 (16384 + run * 256 + code) }
{
    Codeword {
        width: 20,
        bits: 16384 + (run as u32) * 256 + (code as u32),
    }
}

// The codeword of a coefficient with its sign: "a table code wherever Table 5 has one", else an escape. `first` for the first coefficient of a
// block that is not INTRA.
pub fn coefficient_codeword(tables: &WordTables, run: usize, code: u8, first: bool) -> Codeword
    requires { (Tables tables.now) × (Sendable (coefficient_of run code)) }
    ensures { Writes (tcoeff_of (pick first first_table5 later_table5) (coefficient_of run code)) result }
{
    let minus = layout::code::sign(code);
    let level = layout::code::magnitude(code);
    if 16 <= level {
        return escape(run, code);
    }
    if 27 <= run {
        return escape(run, code);
    }
    let pair = run * 16 + level;
    if pair == 1 {
        if first {
            return Codeword {
                width: 2,
                bits: 2 + minus,
            };
        }
        return Codeword {
            width: 3,
            bits: 6 + minus,
        };
    }
    let word = codeword::spelt(tables, PAIR_WORDS + pair);
    let width = word.width;
    if width == 0 {
        return escape(run, code);
    }
    let number = word.bits;
    Codeword {
        width: width + 1,
        bits: number * 2 + minus,
    }
}
