// What a macroblock's type says: 0 is one that isn't sent, 1 to 10 are in the order of Table 2.
ghost use Rattle.std.specs.Prelude.{◌≡◌};
ghost use Rattle.h261_words.specs.Words.{is_intra, is_mc, has_mquant, has_cbp};

pub fn is_intra(kind: u16) -> bool
    ensures { result ≡ is_intra kind }
{
    matches!(kind, 1 | 2)
}

pub fn is_mc(kind: u16) -> bool
    ensures { result ≡ is_mc kind }
{
    matches!(kind, 5 | 6 | 7 | 8 | 9 | 10)
}

pub fn has_mquant(kind: u16) -> bool
    ensures { result ≡ has_mquant kind }
{
    matches!(kind, 2 | 4 | 7 | 10)
}

pub fn has_cbp(kind: u16) -> bool
    ensures { result ≡ has_cbp kind }
{
    matches!(kind, 3 | 4 | 6 | 7 | 9 | 10)
}
