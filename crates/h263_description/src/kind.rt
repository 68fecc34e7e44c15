// What a macroblock's type says: 0 is unsent, 1 INTRA, 2 INTRA+Q, 3 INTER, 4 INTER+Q.
ghost use Rattle.std.specs.Prelude.{◌≡◌};
ghost use Rattle.h263_words.specs.Words.{is_intra, is_inter, has_dquant};

pub fn is_intra(kind: u8) -> bool
    ensures { result ≡ is_intra kind }
{
    if kind == 1 {
        return true;
    }
    kind == 2
}

pub fn is_inter(kind: u8) -> bool
    ensures { result ≡ is_inter kind }
{
    if kind == 3 {
        return true;
    }
    kind == 4
}

pub fn has_dquant(kind: u8) -> bool
    ensures { result ≡ has_dquant kind }
{
    if kind == 2 {
        return true;
    }
    kind == 4
}
