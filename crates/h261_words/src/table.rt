// Tables 1 to 4, each read in the same way: by the entry for its first bits, and by its tree where that doesn't decide.
ghost use Rattle.std.specs.Prelude.{◌≡◌, ℕ};
ghost use lib.Dec.{lit<, lit≤};
ghost use Rattle.bits.specs.Bits.{bits_left};
ghost use Rattle.bits.specs.Code.{CodeTable, word as word_read};
ghost use Rattle.bits.specs.Answer.{Within, as_field};
ghost use Rattle.h261_words.specs.Tables.{table1, table2, table3, table4};
ghost use Rattle.h261_words.specs.Lookup.{Tables, Stands, mba_tree, mtype_tree, mvd_tree, cbp_tree, mba_entries_at, mtype_entries_at, mvd_entries_at, cbp_entries_at};

use crate::WordTables;
use bits::FieldRead;
use refusals::Table;

// A table of codewords: its name in a refusal, and where its tree and its entries by the first WIDTH bits stand in the array.
pub trait Codewords {
    ghost table: { CodeTable };

    ghost TREE: { ℕ };

    ghost ENTRIES: { ℕ };

    ghost WIDTH: { ℕ };

    const TREE: usize;

    const ENTRIES: usize;

    const WIDTH: usize;

    fn name() -> Table
        ensures { result ≡ table.name };

    ghost stands: { Stands table TREE ENTRIES WIDTH };
}

// The codeword at `at`. It is compiled for each table by itself: in one function for all of them the compiler puts the walk into it, which costs each read 29
// instructions (docs/DECISIONS.md).
pub fn word<W: Codewords>(
    tables: &WordTables,
    bytes: &[u8],
    count: usize,
    at: usize,
) -> FieldRead<u32>
    requires { (Tables tables.now) × (Within bytes.now count at) }
    ensures { as_field bytes.now count result ≡ word_read W.table (bits_left bytes.now count at) at }
{
    let e = bits::entry(tables, W::ENTRIES, W::WIDTH, bytes, count, at);
    let length = e % 32;
    if length == 0 {
        return bits::without_entry(tables, W::TREE, W::name(), e, bytes, count, at);
    }
    FieldRead::Got((e / 32) as u32, at + length as usize)
}

pub struct Mba;

impl Codewords for Mba {
    ghost table = { table1 };

    ghost TREE = { mba_tree };

    ghost ENTRIES = { mba_entries_at };

    ghost WIDTH = { 11 };

    const TREE: usize = 0;

    const ENTRIES: usize = 1521;

    const WIDTH: usize = 11;

    ghost stands = { record { low = lit< tt; short = lit≤ tt; room = lit≤ tt; walked = λ t ok. ok.mba; entered = λ t ok. ok.mba_entries } };

    #[tactic(auto, unfolding(crate::specs::Tables::table1))]
    fn name() -> Table {
        Table::Mba
    }
}

pub struct Mtype;

impl Codewords for Mtype {
    ghost table = { table2 };

    ghost TREE = { mtype_tree };

    ghost ENTRIES = { mtype_entries_at };

    ghost WIDTH = { 10 };

    const TREE: usize = 46;

    const ENTRIES: usize = 3569;

    const WIDTH: usize = 10;

    ghost stands = { record { low = lit< tt; short = lit≤ tt; room = lit≤ tt; walked = λ t ok. ok.mtype; entered = λ t ok. ok.mtype_entries } };

    #[tactic(auto, unfolding(crate::specs::Tables::table2))]
    fn name() -> Table {
        Table::Mtype
    }
}

pub struct Mvd;

impl Codewords for Mvd {
    ghost table = { table3 };

    ghost TREE = { mvd_tree };

    ghost ENTRIES = { mvd_entries_at };

    ghost WIDTH = { 11 };

    const TREE: usize = 56;

    const ENTRIES: usize = 4593;

    const WIDTH: usize = 11;

    ghost stands = { record { low = lit< tt; short = lit≤ tt; room = lit≤ tt; walked = λ t ok. ok.mvd; entered = λ t ok. ok.mvd_entries } };

    #[tactic(auto, unfolding(crate::specs::Tables::table3))]
    fn name() -> Table {
        Table::Mvd
    }
}

pub struct Cbp;

impl Codewords for Cbp {
    ghost table = { table4 };

    ghost TREE = { cbp_tree };

    ghost ENTRIES = { cbp_entries_at };

    ghost WIDTH = { 9 };

    const TREE: usize = 90;

    const ENTRIES: usize = 6641;

    const WIDTH: usize = 9;

    ghost stands = { record { low = lit< tt; short = lit≤ tt; room = lit≤ tt; walked = λ t ok. ok.cbp; entered = λ t ok. ok.cbp_entries } };

    #[tactic(auto, unfolding(crate::specs::Tables::table4))]
    fn name() -> Table {
        Table::Cbp
    }
}
