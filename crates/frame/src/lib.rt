// The frame of an index, read from its end: trailer and directory, refusals 1 to 5; then its lists, one after the other.
#![tactic(auto)]

ghost use Rattle.std.specs.Prelude.{◌≡◌, ◌+◌, ◌*◌, ◌-◌, ◌≤◌, ◌<◌, ℕ, length, drop};
ghost use Rattle.paper.specs.Lists.{same};
ghost use Rattle.paper.specs.Refusal.{verdict, accepted, tag, fault4, fault4k, too_short, starts_fault};
ghost use Rattle.paper.specs.Index.{from_end, start_of, k_of};
ghost use Rattle.paper.specs.Look.{numbers_fault, frame_fault, list_fault, lists_fault, in_lists};
ghost use Rattle.paper.specs.Fault.{fault, told};
ghost use Rattle.laws.proofs.Frames.{Laid};

use paper::refusal::{Fault, Refusal};
use record::check_record;
use words::u32_at;

// The four bytes that every index ends in. Looking compares with them, and closing writes them.
pub const TAG: [u8; 4] = *b"SLOT";

// The number that stands d bytes before the end.
#[tactic(auto, unfolding(paper::specs::Index::from_end))]
pub fn from_end(index: &[u8], d: usize) -> u32
    requires { (4 ≤ d) × (d ≤ length index.now) }
    ensures { result ≡ from_end index.now d }
{
    u32_at(index, index.len() - d)
}

// Where the records of an index start, one behind the other: looking reads it in the directory, and closing is given it.
pub trait Starts {
    ghost begins: { Self → ℕ → ℕ };

    ghost many: { Self → ℕ };

    // How many records there are.
    fn count(&self) -> usize
        ensures { result ≡ many self.now };

    // Where record i starts; behind the last record, where the directory does.
    fn start(&self, i: usize) -> usize
        ensures { (result ≡ begins self.now i) × (result < 4294967296) };
}

// The directory of an index that says k lists and is long enough for so many starts.
#[derive(Clone, Copy)]
struct Directory<'a> {
    index: &'a [u8],
    k: usize,
    ghost says: { k ≡ k_of index.now },
    ghost holds: { 24 + 4 * k ≤ length index.now },
}

impl<'a> Starts for Directory<'a> {
    ghost begins = { λ d. start_of d.index.now };

    ghost many = { λ d. k_of d.index.now };

    fn count(&self) -> usize {
        self.k
    }

    #[tactic(auto, using(crate::proofs::Steps::start_found))]
    fn start(&self, i: usize) -> usize {
        let d = if i < self.k { 24 + 4 * (self.k - i) } else { 8 };
        from_end(self.index, d) as usize
    }
}

// Where record i starts; behind the last record, where the directory does.
pub fn start_of(index: &[u8], i: usize) -> usize
    requires { 24 + 4 * k_of index.now ≤ length index.now }
    ensures { (result ≡ start_of index.now i) × (result < 4294967296) }
{
    let k = from_end(index, 12) as usize;
    Directory { index, k }.start(i)
}

// Whether the last four bytes are the tag.
#[tactic(auto, using(crate::proofs::Steps::tag_ends))]
fn tagged(index: &[u8]) -> bool
    requires { 24 ≤ length index.now }
    ensures { result ≡ same (drop (length index.now - 4) index.now) tag }
{
    index.ends_with(&TAG)
}

// Whether one of the records would be shorter than 12 bytes.
#[tactic(auto, using(crate::proofs::Steps::shorts))]
fn too_short<S: Starts>(starts: &S) -> bool
    ensures { result ≡ too_short (S.begins starts.now) (S.many starts.now) 0 }
{
    let k = starts.count();
    let mut from = starts.start(0);
    for i in 0..k {
        let to = starts.start(i + 1);
        if to < from + 12 {
            return true;
        }
        from = to;
    }
    false
}

// 5 of the starts: the first of them, then the lengths of the records.
#[tactic(auto, using(laws::proofs::Links::start_links))]
pub fn check_starts<S: Starts>(starts: &S) -> Result<(), Fault>
    ensures { verdict (fault result) 0 ≡ starts_fault (S.begins starts.now) (S.many starts.now) accepted }
{
    if starts.start(0) != 0 || too_short(starts) {
        return Err(Fault::Directory);
    }
    Ok(())
}

// 4 of u and B.
// Kept: u and B as two numbers wherever both go. The public functions take them so, since C hands them on one by one; behind an open list `Parts` has both.
#[tactic(auto, using(laws::proofs::Links::size_links))]
pub fn check_sizes(u: u32, block: u32) -> Result<(), Fault>
    ensures { verdict (fault result) 0 ≡ fault4 u block accepted }
{
    if u < 1 || 1048576 < u {
        return Err(Fault::Range);
    }
    if block < 1 || 128 < block {
        return Err(Fault::Range);
    }
    Ok(())
}

// 4 of k.
#[tactic(auto, using(laws::proofs::Links::count_links))]
pub fn check_count(k: usize) -> Result<(), Fault>
    ensures { verdict (fault result) 0 ≡ fault4k k accepted }
{
    if k < 1 || 4096 < k {
        return Err(Fault::Range);
    }
    Ok(())
}

// The numbers of the trailer, 3 to 5. The sum is taken in 64 bits, where it cannot wrap.
#[tactic(auto, using(crate::proofs::Steps::numbers))]
fn check_numbers(index: &[u8]) -> Result<(), Fault>
    requires { 24 ≤ length index.now }
    ensures { verdict (fault result) 0 ≡ numbers_fault index.now (length index.now) }
{
    if from_end(index, 24) != 1 {
        return Err(Fault::Edition);
    }
    let u = from_end(index, 20);
    let block = from_end(index, 16);
    check_sizes(u, block)?;
    let k = from_end(index, 12) as usize;
    check_count(k)?;
    let d = from_end(index, 8) as usize;
    if d + 4 * k + 24 != index.len() {
        return Err(Fault::Directory);
    }
    check_starts(&Directory { index, k })
}

// Refusals 1 to 5, in their order. The place of all of them is 0.
#[tactic(auto, using(crate::proofs::Steps::frame))]
pub fn check_frame(index: &[u8]) -> Result<(), Fault>
    ensures { verdict (fault result) 0 ≡ frame_fault index.now (length index.now) }
{
    if index.len() < 24 || 16777216 < index.len() {
        return Err(Fault::Size);
    }
    if !tagged(index) {
        return Err(Fault::Tag);
    }
    check_numbers(index)
}

// Records that lie one behind the other: the first fault found, its place being the list. Each record is handed on as the part of the bytes that
// it is.
#[tactic(auto, using(crate::proofs::Steps::lists))]
pub fn check_records<S: Starts>(bytes: &[u8], u: u32, block: u32, starts: &S) -> Result<(), Refusal>
    requires laid { Laid (length bytes.now) (S.begins starts.now) (S.many starts.now) }
    requires some { 0 < block }
    requires few { S.many starts.now ≤ 4096 }
    ensures { told result ≡ lists_fault (list_fault u block) bytes.now (S.begins starts.now) (S.many starts.now) 0 }
{
    let lists = starts.count() as u32;
    let mut from: usize = 0;
    for i in 0..lists {
        let to = starts.start(i as usize + 1);
        if let Err(fault) = check_record(&bytes[from..to], u, block) {
            return Err(Refusal { fault, place: i });
        }
        from = to;
    }
    Ok(())
}

// The lists of an index that passes 1 to 5.
#[tactic(auto, using(crate::proofs::Steps::accepted))]
pub fn check_lists(index: &[u8]) -> Result<(), Refusal>
    requires { (frame_fault index.now (length index.now)).number ≡ 0 }
    ensures { told result ≡ in_lists index.now }
{
    let u = from_end(index, 20);
    let block = from_end(index, 16);
    let k = from_end(index, 12) as usize;
    check_records(index, u, block, &Directory { index, k })
}
