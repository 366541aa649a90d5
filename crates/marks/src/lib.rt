// The plain way through one list: the candidates up to the cut are told by its bits, those behind it by marks that its slots set in a small table, piece by piece. It
// reports nothing, reads every code at most twice, and no block whose slots are all below the first candidate left.
#![tactic(auto)]

ghost use Rattle.std.specs.Prelude.{◌≡◌, ◌+◌, ◌*◌, ◌≤◌, ◌<◌, IsTrue, length};
ghost use Rattle.paper.specs.Lists.{has, keep};
ghost use Rattle.paper.specs.Bytes.{part};
ghost use Rattle.meaning.proofs.Rising.{Ascends};
ghost use Rattle.codes.specs.InBlock.{read_block};
ghost use Rattle.record.specs.Opened.{block_slots};
ghost use Rattle.record.specs.Holds.{slots_of};
ghost use Rattle.record.specs.Front.{Front, Candidates};
ghost use Rattle.marks.specs.Waiting.{comes_to, AtBlock, Below};
ghost use Rattle.marks.specs.Marks.{marked, marking, NoMarks, Clear, Piece};

use codes::{Block, known_code};
use plain::{Merged, merge_bits, tell};
use record::Held;
use words::u32_at;

// A table without a mark: 255 is the quotient of no slot.
fn no_marks() -> [u8; 16384]
    ensures { NoMarks result }
{
    [255; 16384]
}

// Marks slot y: at its remainder stands its quotient.
fn put_mark(marks: &mut [u8; 16384], y: u32)
    requires { y ≤ 1048576 }
    ensures { marks.new ≡ marking marks.old y }
{
    let at = (y % 16384) as usize;
    marks[at] = (y / 16384) as u8;
}

// Whether slot x is marked. The mark of a slot of the same remainder has another quotient.
fn is_marked(marks: &[u8; 16384], x: u32) -> bool
    ensures { result ≡ marked marks.now x }
{
    let at = (x % 16384) as usize;
    u32::from(marks[at]) == x / 16384
}

// Marks a piece of a block: its first slot, the base, and those behind it that are less than 16384 above it, so that no mark takes the place of another. What is left of the block
// begins with the slot marked last.
#[tactic(auto, using(crate::proofs::Pieces::pieces))]
fn mark_on<'a>(block: Block<'a>, marks: &mut [u8; 16384]) -> Block<'a>
    requires { (block.u ≤ 1048576) × Clear block.first marks.old }
    ensures { let b = block.entry in (result.u ≡ b.u) × Piece b.u result.codes.now (block_slots b) marks.old b.first b.count marks.new 0 result.count result.first }
{
    let base = block.first;
    let mut at: usize = 0;
    let mut y = base;
    put_mark(marks, base);
    for read in 0..block.count {
        let got = known_code(block.codes, at);
        let z = y + got.value + 1;
        if 16384 <= z - base {
            return Block {
                codes: &block.codes[at..],
                count: block.count - read,
                first: y,
                u: block.u,
            };
        }
        put_mark(marks, z);
        at = got.next;
        y = z;
    }
    Block {
        codes: &block.codes[at..],
        count: 0,
        first: y,
        u: block.u,
    }
}

// The block from its second slot on, which the first code gives.
#[tactic(auto, using(crate::proofs::Pieces::pieces))]
fn next_slot<'a>(block: Block<'a>) -> Block<'a>
    requires { (block.u ≤ 1048576) × (0 < block.count) }
    ensures { let b = block.entry in (result.u ≡ b.u) × ((read_block b).slots ≡ block_slots result) × (result.count < b.count) }
{
    let got = known_code(block.codes, 0);
    Block {
        codes: &block.codes[got.next..],
        count: block.count - 1,
        first: block.first + got.value + 1,
        u: block.u,
    }
}

// Candidates up to the last slot of a block: it is marked piece by piece, and after each piece the marks tell.
fn merge_block(
    list: &Held<'_>,
    nth: usize,
    marks: &mut [u8; 16384],
    slots: &mut [u32],
    from: Merged,
) -> Merged
    requires { (nth < list.now.parts.m) × AtBlock list.now nth (comes_to list.now from slots.old) marks.old from slots.old }
    ensures { AtBlock list.now (nth + 1) (comes_to list.now from slots.old) marks.new result slots.new }
{
    let n = slots.len();
    let mut told = from;
    let mut block = list.block(nth);
    // Kept: a `for` is no plainer: how many pieces a block has is known only when it is read.
    'pieces: loop {
        let read = mark_on(block, marks);
        told = tell(read.first, slots, told, |x| is_marked(marks, x));
        if read.count == 0 {
            return told;
        }
        if n <= told.next {
            return told;
        }
        block = next_slot(read);
    }
}

// Whether the slots of block `nth` are all below x, since the next one begins with x or below it.
fn below(list: &Held<'_>, nth: usize, x: u32) -> bool
    requires { nth < list.now.parts.m }
    ensures { IsTrue result → Below list.now.parts list.now.rec.now nth x }
{
    let next = nth + 1;
    next < list.parts.m && u32_at(list.rec, list.parts.from + 8 * next) <= x
}

// One block after the other, until no candidate is left.
fn merge_blocks(list: &Held<'_>, marks: &mut [u8; 16384], slots: &mut [u32], begin: Merged) -> usize
    requires { AtBlock list.now 0 (comes_to list.now begin slots.old) marks.old begin slots.old }
    ensures { Front (comes_to list.now begin slots.old) result slots.new }
{
    let n = slots.len();
    let mut told = begin;
    for nth in 0..list.parts.m {
        let next = told.next;
        if n <= next {
            return told.kept;
        }
        if below(list, nth, slots[next]) {
            continue;
        }
        told = merge_block(list, nth, marks, slots, told);
    }
    told.kept
}

// Candidates behind the cut. Where there are none, or no slots there, no table is made.
#[tactic(auto, using(crate::proofs::Joining::tails))]
fn merge_tail(list: &Held<'_>, slots: &mut [u32], begin: Merged) -> usize
    requires { (begin.next ≤ length slots.old) × Ascends list.now.parts.u list.now.parts.cut (part slots.old begin.next (length slots.old)) }
    ensures { Front (comes_to list.now begin slots.old) result slots.new }
{
    if list.parts.m == 0 {
        return begin.kept;
    }
    if slots.len() <= begin.next {
        return begin.kept;
    }
    let mut marks = no_marks();
    merge_blocks(list, &mut marks, slots, begin)
}

// Keeps, of the slots, those that the list holds, in their order at the front. How many there are is the answer.
#[tactic(auto, using(crate::proofs::Joining::above_cut))]
pub fn merge(list: &Held<'_>, slots: &mut [u32]) -> usize
    requires { Candidates (length slots.old) slots.old × Ascends list.now.parts.u 0 slots.old }
    ensures { Front (keep (λ x. has x (slots_of list.now)) slots.old) result slots.new }
{
    let told = merge_bits(list.bits(), list.parts.cut, slots);
    merge_tail(list, slots, told)
}
