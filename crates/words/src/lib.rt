// A test as a number; numbers of four bytes, read and written, and of eight, read; and the bits of a bit part: one bit, setting one, whether any is
// set beyond a cut, how many are set up to it, and the next one from a slot on.
#![tactic(auto)]

ghost use Rattle.std.specs.Prelude.{◌≡◌, false, ◌+◌, ◌-◌, ◌*◌, ◌%◌, ◌≤◌, ◌<◌, ltb, length};
ghost use Rattle.std.proofs.lemmas.List.Edits.{sets};
ghost use Rattle.paper.specs.Lists.{bit_of, some_slot};
ghost use Rattle.paper.specs.Bytes.{byte_at, u32_at, u32_bytes};
ghost use Rattle.paper.specs.Record.{byte_of, digit_of, bit_at, next_bit, unused, slots_to_cut};
ghost use Rattle.words.specs.Marks.{with_bit};
ghost use Rattle.words.specs.Ones.{top_ones};
ghost use Rattle.words.specs.Runs.{Clear, ClearTo};

// 1 where a test passes, else 0: a place or a count moves on by this, with no branch on what is found.
pub fn one(t: bool) -> usize
    ensures { (result ≡ bit_of t) × (result ≤ 1) }
{
    usize::from(t)
}

// The byte at i, as a wide number. Its bound is promised too, so that sums of bytes are seen to fit.
pub fn byte(s: &[u8], i: usize) -> u32
    requires { i < length s.now }
    ensures { (result ≡ byte_at s.now i) × (result < 256) }
{
    u32::from(s[i])
}

// The number that the four bytes from `at` on spell, the lowest byte first.
#[tactic(auto, unfolding(paper::specs::Bytes::u32_at))]
pub fn u32_at(s: &[u8], at: usize) -> u32
    requires { at + 4 ≤ length s.now }
    ensures { result ≡ u32_at s.now at }
{
    u32::from_le_bytes([s[at], s[at + 1], s[at + 2], s[at + 3]])
}

// The number that the eight bytes from `at` on spell, the lowest byte first.
#[tactic(auto, unfolding(paper::specs::Bytes::u32_at))]
pub fn u64_at(s: &[u8], at: usize) -> u64
    requires { at + 8 ≤ length s.now }
    ensures { result ≡ u32_at s.now at + 4294967296 * u32_at s.now (at + 4) }
{
    u64::from_le_bytes([
        s[at],
        s[at + 1],
        s[at + 2],
        s[at + 3],
        s[at + 4],
        s[at + 5],
        s[at + 6],
        s[at + 7],
    ])
}

// Writes the four bytes of x from `at` on, the lowest byte first.
#[tactic(auto, using(crate::proofs::Stored::word_put))]
pub fn put_u32(s: &mut [u8], at: usize, x: u32)
    requires { at + 4 ≤ length s.old }
    ensures { s.new ≡ sets s.old at (u32_bytes x) }
{
    s[at..at + 4].copy_from_slice(&x.to_le_bytes());
}

// Where bit x stands: in which byte, and as which digit of it. Bits are counted from 1, from the top digit of each byte down.
fn place(x: u32) -> (usize, u32)
    requires { 0 < x }
    ensures { (result.0 ≡ byte_of x) × (result.1 ≡ digit_of x) }
{
    let before = x - 1;
    ((before / 8) as usize, 7 - before % 8)
}

// Whether bit x is set.
#[tactic(auto, unfolding(paper::specs::Record::bit_at))]
pub fn bit(bits: &[u8], x: u32) -> bool
    requires { (0 < x) × (x ≤ 8 * length bits.now) }
    ensures { result ≡ bit_at bits.now x }
{
    let (at, digit) = place(x);
    (bits[at] >> digit) % 2 == 1
}

// Sets bit x, and leaves every other bit as it is.
#[tactic(auto, using(crate::proofs::Marks::or_digit), unfolding(crate::specs::Marks::with_bit))]
pub fn put_bit(bits: &mut [u8], x: u32)
    requires { (0 < x) × (x ≤ 8 * length bits.old) }
    ensures { bits.new ≡ with_bit bits.old x }
{
    let (at, digit) = place(x);
    bits[at] |= 1 << digit;
}

// Whether a bit beyond the cut is set. Such bits are the digits below the cut's own, in its byte, and the mask has a 1 for each. The cut 0 has no
// byte.
// Kept: bits with their cut, here and in `ones_to`, and in `gather` and `plain`. `record::Held` has both for a record without a fault. Whether there is none is still to be found
// out here, and counting opens no record; `gather` and `plain` do hand on what a `Held` has, but of it these two alone, and go by any bits that reach up to the cut.
#[tactic(auto, using(crate::proofs::Unused::unused_bits))]
pub fn rubbish(bits: &[u8], cut: u32) -> bool
    requires { cut ≤ 8 * length bits.now }
    ensures { result ≡ ltb 0 (next_bit bits.now (cut + 1) (unused cut)) }
{
    if cut == 0 {
        return false;
    }
    let (at, digit) = place(cut);
    let mask = (1 << digit) - 1;
    0 < (bits[at] & mask)
}

// How many of the top p bits of a byte are set.
#[tactic(auto, using(crate::proofs::Ones::tops))]
fn top_ones(b: u8, p: u32) -> u32
    requires { p ≤ 8 }
    ensures { (result ≡ top_ones b p) × (result ≤ p) }
{
    (u32::from(b) >> (8 - p)).count_ones()
}

// How many bits are set before byte `to`, as far as whole eights of bytes go: of eight bytes as many as the number that they make has ones, since in
// which of its bytes a bit stands is all the same to their count. The bound on `to` keeps the sum in its type; no cut has more whole bytes. The sum is
// as wide as the numbers that are counted: the compiler counts several side by side, and would have to narrow each count.
#[tactic(auto, using(crate::proofs::Eights::steps))]
fn ones_by_eights(bits: &[u8], to: usize) -> u64
    requires { (to ≤ length bits.now) × (to < 536870912) }
    ensures { (result ≡ length (slots_to_cut (8 * (to - to % 8)) bits.now)) × (result ≤ 8 * (to - to % 8)) }
{
    let mut ones: u64 = 0;
    for turn in 0..to / 8 {
        ones += u64::from(u64_at(bits, 8 * turn).count_ones());
    }
    ones
}

// How many bits up to the cut are set: those of the whole bytes, by eights and then one by one, and those of the byte that the cut lies in. Bits
// behind the cut play no part.
#[tactic(auto, using(crate::proofs::Ones::bytes))]
pub fn ones_to(bits: &[u8], cut: u32) -> u32
    requires { cut ≤ 8 * length bits.now }
    ensures { (result ≡ length (slots_to_cut cut bits.now)) × (result ≤ cut) }
{
    let whole = (cut / 8) as usize;
    let mut ones = ones_by_eights(bits, whole) as u32;
    let from = whole - whole % 8;
    for byte in &bits[from..whole] {
        ones += byte.count_ones();
    }
    let rest = cut % 8;
    if rest == 0 {
        return ones;
    }
    ones + top_ones(bits[whole], rest)
}

// How many whole eights of bytes from byte `at` on and up to byte `to` are passed over, since no bit is set in them.
fn clear_eights(bits: &[u8], at: usize, to: usize) -> usize
    requires { (at ≤ to) × (to ≤ length bits.now) }
    ensures { ClearTo bits.now at to (at + 8 * result) }
{
    let (eights, _) = bits[at..to].as_chunks::<8>();
    let clear = eights
        .iter()
        .position(|eight| u64::from_le_bytes(*eight) != 0);
    clear.unwrap_or(eights.len())
}

// From a bit that is not set on, how many are passed over at once: to the end of a byte in which none is set, with the empty eights of bytes that begin there, else that
// one. Where fewer bits are left to be looked at than the byte has, one at a time will do: it is the last byte.
#[tactic(auto, using(crate::proofs::Nexts::runs))]
fn clear_run(bits: &[u8], x: u32, left: u32) -> u32
    requires { (0 < x) × (0 < left) × (x + left ≤ 8 * length bits.now + 1) × (bit_at bits.now x ≡ false) }
    ensures { (1 ≤ result) × (result ≤ left) × Clear bits.now x result }
{
    let (at, digit) = place(x);
    let to_end = digit + 1;
    if left < to_end {
        return 1;
    }
    if bits[at] != 0 {
        return 1;
    }
    if to_end < 8 {
        return to_end;
    }
    let eights = clear_eights(bits, at, at + (left / 8) as usize);
    if eights == 0 {
        return 8;
    }
    64 * eights as u32
}

// The first of the k bits from x on that is set, if there is one.
#[tactic(auto, using(crate::proofs::Nexts::turns))]
pub fn next_bit(bits: &[u8], x: u32, k: u32) -> Option<u32>
    requires { (0 < x) × (x + k ≤ 8 * length bits.now + 1) × (x + k ≤ 4294967295) }
    ensures { result ≡ some_slot (next_bit bits.now x k) }
{
    let mut at = x;
    let mut left = k;
    // Kept: a `for` is no plainer, since one step passes over as many bits as the last one told.
    while 0 < left {
        if bit(bits, at) {
            return Some(at);
        }
        let run = clear_run(bits, at, left);
        at += run;
        left -= run;
    }
    None
}
