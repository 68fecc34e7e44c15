// Codewords on their way out: taken from an array of them by their meanings, and appended.
ghost use Rattle.std.specs.Prelude.{◌≡◌, ◌<◌, length, get_or};
ghost use Rattle.bits.specs.Bits.{bits_of};
ghost use Rattle.bits.specs.Appended.{FieldFits, WroteBits, CountablePlace};
ghost use Rattle.bits.specs.Codewords.{codeword_in};

// A codeword to be written: its number in `width` bits.
#[derive(Clone, Copy, PartialEq, Eq, Debug)]
pub struct Codeword {
    pub width: usize,
    pub bits: u32,
}

fn split(e: u16) -> Codeword
    ensures { result ≡ codeword_in e }
{
    Codeword {
        width: (e % 32) as usize,
        bits: (e / 32) as u32,
    }
}

// The codeword that an entry by meaning spells.
pub fn spelt(table: &[u16], place: usize) -> Codeword
    requires { place < length table.now }
    ensures { result ≡ codeword_in (get_or table.now place 0) }
{
    split(table[place])
}

// A codeword at a place of the output, as far as it has room; the place after it.
pub fn append(out: &mut [u8], at: usize, word: Codeword) -> usize
    requires { (FieldFits word.width word.bits) × (CountablePlace at (bits_of word.width word.bits)) }
    ensures { WroteBits (bits_of word.width word.bits) out.old at out.new result }
{
    let width = word.width;
    let number = word.bits;
    crate::append(out, at, width, number)
}
