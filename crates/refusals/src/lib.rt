// Document 01's table of refusals: each reason by name, and the refusal with its bit place. A refusal is passed on unopened.
#![tactic(auto)]

ghost use Rattle.std.specs.Prelude.{◌≡◌, Err};
ghost use Rattle.refusals.specs.Number.{number, table_number, read_table, refusal};

// The table of codewords that was being read: H.261's Tables 1 to 5, then H.263's.
#[derive(Clone, Copy, PartialEq, Eq, Debug)]
pub enum Table {
    Mba,
    Mtype,
    Mvd,
    Cbp,
    Tcoeff,
    McbpcIntra,
    McbpcInter,
    Cbpy,
    Mvd263,
    Tcoef263,
}

#[derive(Clone, Copy, PartialEq, Eq, Debug)]
pub enum Reason {
    Length,
    Count,
    BitsEnd,
    NoStartCode,
    OtherFormat,
    OtherGroup,
    QuantiserZero,
    NoCodeword(Table),
    AddressPast,
    Forbidden,
    CoefficientPast,
    VectorOut,
    AfterLast,
    OptionalMode,
    BlockCheck,
    BlockField,
    OtherClip,
    UntrueMark,
    Invalid,
    AboveLimit,
    NotRefresh,
    AllSent,
    NoneKept,
    NoLock,
}

#[derive(Clone, Copy, PartialEq, Eq, Debug)]
pub struct Refusal {
    pub reason: Reason,
    pub place: usize,
}

// Nothing is written, for this reason. Its place is 0.
pub fn not_written(reason: Reason) -> Result<usize, Refusal>
    ensures { result ≡ Err (refusal reason 0) }
{
    Err(Refusal { reason, place: 0 })
}

// A refusal's number in the table, for programs that print it. It and `table_of` are no `From`: each alone drops a part of the reason.
#[tactic(auto, unfolding(crate::specs::Number::number))]
pub fn number_of(reason: Reason) -> u32
    ensures { result ≡ number reason }
{
    match reason {
        Reason::Length => 1,
        Reason::Count => 2,
        Reason::BitsEnd => 3,
        Reason::NoStartCode => 4,
        Reason::OtherFormat => 5,
        Reason::OtherGroup => 6,
        Reason::QuantiserZero => 7,
        Reason::NoCodeword(_) => 8,
        Reason::AddressPast => 9,
        Reason::Forbidden => 10,
        Reason::CoefficientPast => 11,
        Reason::VectorOut => 12,
        Reason::AfterLast => 13,
        Reason::OptionalMode => 14,
        Reason::BlockCheck => 21,
        Reason::BlockField => 22,
        Reason::OtherClip => 23,
        Reason::UntrueMark => 24,
        Reason::Invalid => 31,
        Reason::AboveLimit => 32,
        Reason::NotRefresh => 33,
        Reason::AllSent => 34,
        Reason::NoneKept => 43,
        Reason::NoLock => 44,
    }
}

// A table's number.
#[tactic(auto, unfolding(crate::specs::Number::table_number))]
fn table_number(table: Table) -> u32
    ensures { result ≡ table_number table }
{
    match table {
        Table::Mba => 1,
        Table::Mtype => 2,
        Table::Mvd => 3,
        Table::Cbp => 4,
        Table::Tcoeff => 5,
        Table::McbpcIntra => 6,
        Table::McbpcInter => 7,
        Table::Cbpy => 8,
        Table::Mvd263 => 9,
        Table::Tcoef263 => 10,
    }
}

// The table that a refusal carries: "Other refusals carry table 0."
#[tactic(auto, unfolding(crate::specs::Number::read_table, crate::specs::Number::table_number))]
pub fn table_of(reason: Reason) -> u32
    ensures { result ≡ read_table reason }
{
    match reason {
        Reason::NoCodeword(table) => table_number(table),
        _ => 0,
    }
}
