// What the words that a program is started with name.
#![tactic(auto)]

ghost use Rattle.std.specs.Prelude.{◌≡◌, ◌+◌, ◌-◌, ◌*◌, ◌≤◌};
ghost use Rattle.arguments.specs.Words.{size_named, kind_sized, kind_named, digit, longer, clip_named, size_alone, clip_in, size_with_clip, vault_named};

use coding::Kind;
use size::Size;
use text::same;
use vault::Standard;

// A vault's blocks: their size, and the clip where one is named.
#[derive(Clone, Copy, PartialEq, Eq, Debug)]
pub struct VaultWords {
    pub size: Size,
    pub clip: Option<u16>,
}

// "sqcif", "qcif" or "cif".
pub fn size_named(word: &[u8]) -> Option<Size>
    ensures { result ≡ size_named word.now }
{
    if same(word, b"sqcif") {
        return Some(Size::SubQcif);
    }
    if same(word, b"qcif") {
        return Some(Size::Qcif);
    }
    if same(word, b"cif") {
        return Some(Size::Cif);
    }
    None
}

// A standard's kind of the size that a word names.
fn kind_sized(standard: Standard, word: &[u8]) -> Option<Kind>
    ensures { result ≡ kind_sized standard (size_named word.now) }
{
    let size = size_named(word)?;
    coding::kind_in(standard, size)
}

// A size's word is H.261's; after "h263-" it is H.263's.
pub fn kind_named(word: &[u8]) -> Option<Kind>
    ensures { result ≡ kind_named word.now }
{
    if word.len() < 5 {
        return kind_sized(Standard::H261, word);
    }
    if same(&word[..5], b"h263-") {
        return kind_sized(Standard::H263, &word[5..]);
    }
    kind_sized(Standard::H261, word)
}

fn is_digit(c: u8) -> bool
    ensures { result ≡ digit c }
{
    if c < 48 {
        return false;
    }
    c <= 57
}

fn lengthen(n: u32, c: u8) -> u32
    requires { (n ≤ 65535) × (48 ≤ c) }
    ensures { result ≡ longer n c }
{
    10 * n + ((c - 48) as u32)
}

// A number of 16 bits in decimal digits, as many as there are, with no sign: `parse` takes a sign too.
pub fn clip_named(word: &[u8]) -> Option<u16>
    ensures { result ≡ clip_named word.now }
{
    if word.len() == 0 {
        return None;
    }
    let mut n: u32 = 0;
    for &c in word {
        if !is_digit(c) {
            return None;
        }
        n = lengthen(n, c);
        if 65535 < n {
            return None;
        }
    }
    Some(n as u16)
}

fn size_alone(word: &[u8]) -> Option<VaultWords>
    ensures { result ≡ size_alone (size_named word.now) }
{
    let size = size_named(word)?;
    Some(VaultWords { size, clip: None })
}

// No clip has number 0.
fn clip_in(size: Size, word: &[u8]) -> Option<VaultWords>
    ensures { result ≡ clip_in size (clip_named word.now) }
{
    match clip_named(word)? {
        0 => None,
        clip => Some(VaultWords {
            size,
            clip: Some(clip),
        }),
    }
}

fn size_with_clip(size: &[u8], clip: &[u8]) -> Option<VaultWords>
    ensures { result ≡ size_with_clip (size_named size.now) (clip_named clip.now) }
{
    let named = size_named(size)?;
    clip_in(named, clip)
}

// How many words there are, the program's own name among them, and the two after it: a size alone, or a size and a clip from 1 to 65535.
#[tactic(auto, unfolding(crate::specs::Words::vault_named))]
pub fn vault_named(count: usize, size: &[u8], clip: &[u8]) -> Option<VaultWords>
    ensures { result ≡ vault_named count size.now clip.now }
{
    match count {
        2 => size_alone(size),
        3 => size_with_clip(size, clip),
        _ => None,
    }
}
