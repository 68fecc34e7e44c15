// Mending a frame of H.261 5.4 by the BCH (511,493) code. A frame is 512 bits, 64 bytes: the framing bit, then a word of 511 bits, the fill
// indicator and 492 data bits with their 18 parity bits. A place in the word is named by the number of bits after it, so place n is bit 511 - n
// of the frame. A word without a wrong bit is told by one division, a byte at a time; wrong bits are found by three lookups, not by trying.
#![tactic(auto)]

ghost use Rattle.std.specs.Prelude.{◌≡◌, [], ◌∷◌, ◌≤◌, ◌<◌, get_or};
ghost use Rattle.laws.specs.Xor.{◌⊕◌};
ghost use Rattle.bits.specs.Bits.{bits_of};
ghost use Rattle.bch.specs.Division.{up, fed as fed_bits};
ghost use Rattle.bch.specs.Code.{generator, remainder as remainder_of};
ghost use Rattle.bch.specs.Locate.{part as part_of, seek, locate};
ghost use Rattle.bch.specs.Frame.{word, byte_steps, log_tables, factor, as_places, Changed, Mend};

mod logs;
mod steps;

// Where a word is wrong.
#[derive(Clone, Copy, PartialEq, Eq)]
pub enum Places {
    Nowhere,
    One(usize),
    Two(usize, usize),
}

#[derive(Clone, Copy, PartialEq, Eq)]
pub enum Mending {
    Mended,
    Unmended,
}

// What the division by bytes looks up: made once, and lent to every frame.
pub fn byte_steps() -> [u32; 256]
    ensures { result ≡ byte_steps }
{
    steps::STEPS
}

fn log_tables() -> [u16; 2048]
    ensures { result ≡ log_tables }
{
    logs::LOGS
}

fn entry(table: &[u16; 2048], i: usize) -> usize
    requires { i < 2048 }
    ensures { result ≡ get_or table.now i 0 }
{
    usize::from(table[i])
}

// One byte more into the register of 18 bits.
fn fed(steps: &[u32; 256], register: u32, byte: u8) -> u32
    requires { (steps.now ≡ byte_steps) × (register < 262144) }
    ensures { (result ≡ fed_bits generator (bits_of 8 byte) register) × (result < 262144) }
{
    let high = (register / 1024) as usize;
    steps[high] ^ ((register % 1024) * 256) ^ u32::from(byte)
}

// One bit more into a register of 9 bits, of the factor x^9 and rest.
fn fed_short(rest: u32, register: u32, bit: u32) -> u32
    requires { (rest < 512) × (bit < 2) }
    ensures { result ≡ up (factor rest) register ⊕ bit }
{
    ((register % 256) * 2) ^ ((register / 256 % 2) * rest) ^ bit
}

// What the frame's word leaves.
fn remainder(steps: &[u32; 256], frame: &[u8; 64]) -> u32
    requires { steps.now ≡ byte_steps }
    ensures { (result ≡ remainder_of (word frame.now)) × (result < 262144) }
{
    let mut register = u32::from(frame[0]) % 128;
    for byte in &frame[1..] {
        register = fed(steps, register, *byte);
    }
    register
}

// What is left of a remainder by the factor x^9 and rest.
fn part(rest: u32, r: u32) -> u32
    requires { (rest < 512) × (r < 262144) }
    ensures { (result ≡ part_of (factor rest) r) × (result < 512) }
{
    let mut register = r / 512;
    for k in 0u32..9 {
        register = fed_short(rest, register, (r >> (8 - k)) % 2);
    }
    register
}

// The places of one or two wrong bits, by the two logs of what the word leaves.
fn sought(table: &[u16; 2048], u: usize, v: usize) -> Places
    requires { (table.now ≡ log_tables) × (u ≤ 511) × (v ≤ 511) }
    ensures { as_places result ≡ seek u v }
{
    let lag = (v + 511 - u) % 511;
    if lag == 0 {
        return Places::One(u);
    }
    let m = (u + entry(table, 1536 + lag)) % 511;
    let n = (m + entry(table, 1024 + lag)) % 511;
    if m < n {
        Places::Two(n, m)
    } else {
        Places::Two(m, n)
    }
}

// Where a word that leaves r is wrong, if it is so in one or two places.
fn located(r: u32) -> Places
    requires { r < 262144 }
    ensures { as_places result ≡ locate r }
{
    if r == 0 {
        return Places::Nowhere;
    }
    let table = log_tables();
    let u = entry(&table, part(17, r) as usize);
    let v = entry(&table, 512 + part(89, r) as usize);
    sought(&table, u, v)
}

// The bit at place n turned; nothing where the word has no such place.
fn turned(frame: [u8; 64], n: usize) -> [u8; 64]
    ensures { Changed (n ∷ []) frame result }
{
    if 511 <= n {
        return frame;
    }
    let k = 511 - n;
    let mut t = frame;
    t[k / 8] = t[k / 8] ^ (128u8 >> (k % 8));
    t
}

fn changed(frame: [u8; 64], places: Places) -> [u8; 64]
    ensures { Changed (as_places places) frame result }
{
    match places {
        Places::Nowhere => frame,
        Places::One(n) => turned(frame, n),
        Places::Two(m, n) => turned(turned(frame, m), n),
    }
}

// "Any codeword with one or two wrong bits is given back as sent. A frame is mended only if some codeword lies within two bits of it". The framing
// bit is not looked at.
pub fn mend(steps: &[u32; 256], frame: &mut [u8; 64]) -> Mending
    requires { steps.now ≡ byte_steps }
    ensures { Mend frame.old result frame.new }
{
    let r = remainder(steps, frame);
    if r == 0 {
        return Mending::Mended;
    }
    let tried = changed(*frame, located(r));
    if remainder(steps, &tried) != 0 {
        return Mending::Unmended;
    }
    *frame = tried;
    Mending::Mended
}
