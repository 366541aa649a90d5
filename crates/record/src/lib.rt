// One record: its check, its count, and where its parts and its blocks lie. A record comes as the part of the index that it is. Names are the paper's:
// u, the cut, n tail slots in m blocks of `block` slots, their entries and their codes.
#![tactic(auto)]

ghost use Rattle.std.specs.Prelude.{◌&&◌, ◌≡◌, ◌+◌, ◌*◌, ◌-◌, ◌≤◌, ◌<◌, min, ltb, eqb, length, drop};
ghost use Rattle.paper.specs.Bytes.{ceil_div};
ghost use Rattle.paper.specs.Fault.{fault};
ghost use Rattle.paper.specs.Tail.{end_of, read_blocks, read_tail};
ghost use Rattle.paper.specs.Record.{cut_of, tail_count, record_fault};
ghost use Rattle.paper.specs.Held.{count_of};

use checks::check_codes;
use paper::refusal::Fault;
use words::{ones_to, rubbish, u32_at};

mod held;

pub use held::Held;

// x / y, rounded up.
pub fn ceil(x: u32, y: u32) -> usize
    requires { 0 < y }
    ensures { (result ≡ ceil_div x y) × (result ≤ x) }
{
    x.div_ceil(y) as usize
}

// Where the codes of the block whose entry is at byte `at` end, `blocks` being left: at the next block's offset, or at the end of all codes.
#[tactic(auto, using(crate::proofs::Turns::end_inner))]
fn block_end(entries: &[u8], len: usize, blocks: usize, at: usize) -> usize
    requires { (at + 8 * blocks ≤ length entries.now) × (0 < blocks) }
    ensures { result ≡ end_of len (drop at entries.now) (blocks - 1) }
{
    if blocks == 1 {
        return len;
    }
    u32_at(entries, at + 12) as usize
}

// The first fault of n slots in m blocks. Each block is judged whole before the next, and its codes are handed on as a part of their own.
#[tactic(auto, using(crate::proofs::Turns::turns))]
fn check_blocks(
    entries: &[u8],
    codes: &[u8],
    block: u32,
    m: usize,
    n: u32,
    cut: u32,
    u: u32,
) -> Result<(), Fault>
    requires { (0 < block) × (m ≡ ceil_div n block) × (8 * m ≤ length entries.now) }
    ensures { fault result ≡ (read_blocks u block (length codes.now) m n cut 0 entries.now codes.now).fault }
{
    let len = codes.len();
    let mut left = n;
    let mut start: usize = 0;
    let mut prev = cut;
    for nth in 0..m {
        let at = 8 * nth;
        let first = u32_at(entries, at);
        let end = block_end(entries, len, m - nth, at);
        if end < start || len < end {
            return Err(Fault::Offset);
        }
        if first <= prev || u < first {
            return Err(Fault::Slot);
        }
        let size = block.min(left);
        prev = check_codes(&codes[start..end], size - 1, first, u)?;
        start = end;
        left -= size;
    }
    Ok(())
}

// The first fault of a tail: that of its first offset, then those of its blocks.
// Kept: the numbers of the head one by one, here and in `check_blocks`, with m beside the entries. `Parts` has five of them, and where they lie, but stands for a record that has no
// fault; another struct would be made in one place and taken apart in these two.
#[tactic(auto, using(crate::proofs::Spans::tails))]
fn check_tail(
    entries: &[u8],
    codes: &[u8],
    block: u32,
    m: usize,
    n: u32,
    cut: u32,
    u: u32,
) -> Result<(), Fault>
    requires { (0 < block) × (m ≡ ceil_div n block) × (length entries.now ≡ 8 * m) }
    ensures { fault result ≡ (read_tail u block cut n (length codes.now) entries.now codes.now).fault }
{
    if m == 0 {
        return Ok(());
    }
    if u32_at(entries, 4) != 0 {
        return Err(Fault::Offset);
    }
    check_blocks(entries, codes, block, m, n, cut, u)
}

// Whether there are code bytes without a tail.
fn stray(n: u32, len: u32) -> bool
    ensures { result ≡ (eqb n 0 && ltb 0 len) }
{
    n == 0 && 0 < len
}

// The first fault of a record, 6 to 9 or 17. None of its bytes is read twice, and of those of its bits only the last.
pub fn check_record(rec: &[u8], u: u32, block: u32) -> Result<(), Fault>
    requires { (12 ≤ length rec.now) × (0 < block) }
    ensures { fault result ≡ record_fault u block (length rec.now) rec.now }
{
    let cut = u32_at(rec, 0);
    let n = u32_at(rec, 4);
    let len = u32_at(rec, 8);
    if u < cut || u - cut < n || stray(n, len) {
        return Err(Fault::Head);
    }
    let m = ceil(n, block);
    let from = 12 + ceil(cut, 8);
    let to = from + 8 * m;
    if to + len as usize != rec.len() {
        return Err(Fault::Head);
    }
    if rubbish(&rec[12..from], cut) {
        return Err(Fault::Unused);
    }
    check_tail(&rec[from..to], &rec[to..], block, m, n, cut, u)
}

// How many slots a record holds: its set bits up to the cut, and the slots of its tail.
#[tactic(auto, using(crate::proofs::Opening::counts))]
pub fn count_record(rec: &[u8]) -> u32
    requires { (12 + ceil_div (cut_of rec.now) 8 ≤ length rec.now) × (cut_of rec.now + tail_count rec.now ≤ 1048576) }
    ensures { result ≡ count_of rec.now }
{
    let cut = u32_at(rec, 0);
    let n = u32_at(rec, 4);
    let to = 12 + ceil(cut, 8);
    ones_to(&rec[12..to], cut) + n
}

// Where the parts of a record lie, and the numbers that go with them: the bits from 12 up to `from`, m entries up to `to`, then the codes of
// n slots above the cut.
#[derive(Clone, Copy)]
pub struct Parts {
    pub u: u32,
    pub block: u32,
    pub cut: u32,
    pub n: u32,
    pub m: usize,
    pub from: usize,
    pub to: usize,
}

// How many slots block `nth` has: a whole block, or those that are left of n.
fn slots_in(n: u32, block: u32, nth: usize) -> u32
    requires { nth * block < n }
    ensures { result ≡ min block (n - nth * block) }
{
    let left = (n as usize - nth * block as usize) as u32;
    block.min(left)
}
