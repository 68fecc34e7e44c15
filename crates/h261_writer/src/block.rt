// The blocks of a macroblock: their coefficients as runs and levels, to EOB.
ghost use Rattle.std.specs.Prelude.{◌≡◌, length, drop};
ghost use Rattle.bits.specs.Appended.{WroteBits};
ghost use Rattle.layout.specs.Flat.{gather, gathers};
ghost use Rattle.layout.specs.Pattern.{pattern_of};
ghost use Rattle.h261_writer.specs.Write.{block_of, blocks_of};
ghost use Rattle.h261_writer.specs.Sound.{coded_bits};
ghost use Rattle.h261_writer.specs.Asked.{CoefficientsAsked, BlockAsked, BlocksAsked};

use h261_words::WordTables;

// The coefficients of a block from one of its levels on; `opening` where the first is yet to come in a block that isn't INTRA, which isn't sent if it has none.
fn coefficients(
    tables: &WordTables,
    levels: &[u8],
    from: usize,
    opening: bool,
    out: &mut [u8],
    at: usize,
) -> usize
    requires { CoefficientsAsked tables.now levels.now from opening at }
    ensures { WroteBits (coded_bits opening (gather 0 (drop from levels.now))) out.old at out.new result }
{
    let end = levels::zeros_from(levels);
    let mut first = opening;
    let mut run: usize = 0;
    let mut place = at;
    for code in &levels[from..end] {
        let code = *code;
        if code == 0 {
            run += 1;
            continue;
        }
        let word = h261_words::coefficient_codeword(tables, run, code, first);
        place = bits::codeword::append(out, place, word);
        first = false;
        run = 0;
    }
    if first {
        return place;
    }
    bits::codeword::append(out, place, h261_words::end_codeword())
}

// One block of 64 levels.
fn block(tables: &WordTables, levels: &[u8], intra: bool, out: &mut [u8], at: usize) -> usize
    requires { BlockAsked tables.now levels.now intra at }
    ensures { WroteBits (block_of intra (gather 0 levels.now)) out.old at out.new result }
{
    if intra {
        let after = bits::append(out, at, 8, levels[0] as u32);
        return coefficients(tables, levels, 1, false, out, after);
    }
    coefficients(tables, levels, 0, true, out, at)
}

// The six blocks of a macroblock.
pub fn blocks(tables: &WordTables, levels: &[u8], intra: bool, out: &mut [u8], at: usize) -> usize
    requires { BlocksAsked tables.now levels.now intra at }
    ensures { WroteBits (blocks_of intra (gathers 6 levels.now)) out.old at out.new result }
{
    let mut place = at;
    for b in 0..6 {
        let a = b * 64;
        place = block(tables, &levels[a..a + 64], intra, out, place);
    }
    place
}

// CBP of a macroblock's 384 levels.
pub fn pattern(levels: &[u8]) -> usize
    requires { length levels.now ≡ 384 }
    ensures { result ≡ pattern_of (gathers 6 levels.now) }
{
    let a = levels::present(&levels[0..64]);
    let b = levels::present(&levels[64..128]);
    let c = levels::present(&levels[128..192]);
    let d = levels::present(&levels[192..256]);
    let e = levels::present(&levels[256..320]);
    let f = levels::present(&levels[320..384]);
    a * 32 + b * 16 + c * 8 + d * 4 + e * 2 + f
}
