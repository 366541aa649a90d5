// The plain way through one list: one merge of the candidates with the list's slots. It reports nothing, and reads every code at most once.
#![tactic(auto)]

ghost use Rattle.std.specs.Prelude.{◌≡◌, ℕ, Bool, ◌*◌, ◌≤◌, ◌<◌, length, take, slice_index};
ghost use mathlib.Core.List.{◌++◌, flatten};
ghost use Rattle.paper.specs.Bytes.{part};
ghost use Rattle.paper.specs.Record.{bit_at, tail_of};
ghost use Rattle.record.specs.Opened.{block_slots};
ghost use Rattle.record.specs.Holds.{list_of};
ghost use Rattle.record.specs.Front.{Front, Candidates};
ghost use Rattle.plain.specs.Sifted.{up_to, by_slots, plainly, behind, Told};

use codes::{Block, known_code};
use record::Held;
use words::{bit, one};

// How far a merge is: `kept` candidates stand at the front, and those from `next` on are still to be told. None is told before it is read, and so no place that is
// written to is ahead of the one read.
#[derive(Clone, Copy)]
pub struct Merged {
    pub kept: usize,
    pub next: usize,
    pub ghost low: { kept ≤ next },
}

// Candidates up to y, from those on that are still to be told: the ones that pass a test are kept. Each is stored in any case, and the place behind the kept ones moves on
// where it passes: no branch on what is found.
// Kept: that the place to go on from lies in the slots is asked for here, in `merge_block`, in `merge_blocks` and in `marks`. A struct of slice and place would have to be taken apart
// at each store.
pub fn tell<F: Fn(u32) -> bool>(y: u32, slots: &mut [u32], from: Merged, test: F) -> Merged
    requires within { from.next ≤ length slots.old }
    requires asked { (k : ℕ) → from.next ≤ k → k < length slots.old → slice_index slots.old k ≤ y → F.pre test (slice_index slots.old k) }
    ensures { (t : ℕ → Bool) → ((x : ℕ) (r : Bool) → x ≤ y → F.post test x r → r ≡ t x) → let n = length slots.old in Told (behind (take from.kept slots.old) (up_to y t (part slots.old from.next n))) n result.kept result.next slots.new }
{
    let n = slots.len();
    let mut kept = from.kept;
    for next in from.next..n {
        let x = slots[next];
        if y < x {
            return Merged { kept, next };
        }
        let more = one(test(x));
        slots[kept] = x;
        kept = kept + more;
    }
    Merged { kept, next: n }
}

// Candidates up to the cut: their bits tell.
pub fn merge_bits(bits: &[u8], cut: u32, slots: &mut [u32]) -> Merged
    requires { (cut ≤ 8 * length bits.now) × Candidates (length slots.old) slots.old }
    ensures { Told (up_to cut (bit_at bits.now) slots.old) (length slots.old) result.kept result.next slots.new }
{
    tell(cut, slots, Merged { kept: 0, next: 0 }, |x| bit(bits, x))
}

// Candidates up to the last slot of a block: the slot y that was read last is held against the first of them, and gives way to the next slot
// where it is below.
#[tactic(auto, using(crate::proofs::Turns::by_codes))]
fn merge_block(block: Block<'_>, slots: &mut [u32], from: Merged) -> Merged
    requires { from.next ≤ length slots.old }
    ensures { let n = length slots.old in Told (behind (take from.kept slots.old) (by_slots (block_slots block.entry) (part slots.old from.next n))) n result.kept result.next slots.new }
{
    let n = slots.len();
    let mut kept = from.kept;
    let mut next = from.next;
    let mut at: usize = 0;
    let mut left = block.count;
    let mut y = block.first;
    // Kept: a `for` is no plainer here, where a turn moves on either the candidate or the slot.
    while next < n {
        let x = slots[next];
        if x <= y {
            let more = one(y == x);
            slots[kept] = x;
            kept = kept + more;
            next = next + 1;
        } else {
            if left == 0 {
                return Merged { kept, next };
            }
            let got = known_code(block.codes, at);
            y = y + got.value + 1;
            at = got.next;
            left = left - 1;
        }
    }
    Merged { kept, next }
}

// One block after the other, until no candidate is left.
#[tactic(auto, using(crate::proofs::Joining::by_blocks))]
fn merge_blocks(list: &Held<'_>, slots: &mut [u32], begin: Merged) -> usize
    requires { begin.next ≤ length slots.old }
    ensures { let h = list.now in Front (take begin.kept slots.old ++ (by_slots (flatten (tail_of h.parts.u h.parts.block h.rec.now).blocks) (part slots.old begin.next (length slots.old))).kept) result slots.new }
{
    let n = slots.len();
    let mut told = begin;
    for nth in 0..list.parts.m {
        if n <= told.next {
            return told.kept;
        }
        told = merge_block(list.block(nth), slots, told);
    }
    told.kept
}

// Keeps, of the slots, those that the list holds, in their order at the front. How many there are is the answer.
// Kept: beside `marks::merge`. It is public, and promises what `plainly` keeps of candidates in any order.
#[tactic(auto, using(crate::proofs::Joining::merged))]
pub fn merge(list: &Held<'_>, slots: &mut [u32]) -> usize
    requires { Candidates (length slots.old) slots.old }
    ensures { Front (plainly (list_of list.now) slots.old) result slots.new }
{
    let told = merge_bits(list.bits(), list.parts.cut, slots);
    merge_blocks(list, slots, told)
}
