// One list's slots, put to the front of a slice, and the rest of the slice cleared. Nothing here is counted: gathering the
// candidates of a question costs neither looks nor codes.
#![tactic(auto)]

ghost use Rattle.std.specs.Prelude.{◌≡◌, ◌+◌, ◌*◌, ◌-◌, ◌≤◌, ◌<◌, length, take, replicate};
ghost use mathlib.Core.List.{◌++◌, flatten};
ghost use Rattle.paper.specs.Lists.{keep, up_from};
ghost use Rattle.paper.specs.Block.{read_codes};
ghost use Rattle.codes.specs.InBlock.{read_block};
ghost use Rattle.paper.specs.Record.{bit_at, slots_to_cut, tail_of};
ghost use Rattle.paper.specs.Held.{count_of};
ghost use Rattle.gather.specs.Shown.{Shown};
ghost use Rattle.record.specs.Holds.{slots_of};
ghost use Rattle.record.specs.Front.{Front};

use codes::{Block, known_code, read_code};
use record::Held;
use words::{bit, one};

// The bits of the eight bytes from `at` on as one number, the first of them its highest digit.
// Kept: beside `words::u64_at`, which has the lowest byte first. Its bytes turned round would be this order said twice.
fn word(bits: &[u8], at: usize) -> u64
    requires { at + 8 ≤ length bits.now }
    ensures { Shown bits.now (8 * at + 64) 64 result }
{
    u64::from_be_bytes([
        bits[at],
        bits[at + 1],
        bits[at + 2],
        bits[at + 3],
        bits[at + 4],
        bits[at + 5],
        bits[at + 6],
        bits[at + 7],
    ])
}

// The highest of 64 digits.
const HIGH: u64 = 9223372036854775808;

// Puts the slots of the set bits in the eight bytes from `at` on behind the `from` slots that stand there: the highest digit that is set tells the next one, and is then
// taken away. They are known to fit.
// Kept: how many slots stand there goes beside the slice, here and in the functions behind, as the place to go on from: the part in front of it is what the promise speaks of.
fn put_word(bits: &[u8], at: usize, slots: &mut [u32], from: usize) -> usize
    requires { (at + 8 ≤ length bits.now) × (8 * at + 64 ≤ 1048576) × (from + length (keep (bit_at bits.now) (up_from (8 * at + 1) 64)) ≤ length slots.old) }
    ensures { Front (take from slots.old ++ keep (bit_at bits.now) (up_from (8 * at + 1) 64)) result slots.new }
{
    let first = 8 * at as u32 + 1;
    let mut v = word(bits, at);
    let mut w = from;
    // Kept: a `for` is no plainer: there are as many turns as digits that are set, and each takes the highest of them away.
    while 0 < v {
        let zeros = u64::leading_zeros(v);
        slots[w] = first + zeros;
        w = w + 1;
        v = v - (HIGH >> zeros);
    }
    w
}

// Puts every slot whose bit is set, up to the cut, to the front: eight bytes at a time, and behind them bit by bit. There a slot is stored in any case, and the place behind the
// others moves on where its bit is set. Where the slice is full, no bit is left that is set.
fn gather_bits(bits: &[u8], cut: u32, slots: &mut [u32]) -> usize
    requires { (cut ≤ 1048576) × (cut ≤ 8 * length bits.now) × (length (slots_to_cut cut bits.now) ≤ length slots.old) }
    ensures { Front (slots_to_cut cut bits.now) result slots.new }
{
    let n = slots.len();
    let words = cut / 64;
    let mut w: usize = 0;
    for nth in 0..words {
        w = put_word(bits, 8 * nth as usize, slots, w);
    }
    for x in 64 * words + 1..cut + 1 {
        if n <= w {
            return w;
        }
        let more = one(bit(bits, x));
        slots[w] = x;
        w = w + more;
    }
    w
}

// Puts the slots that the codes of a block give behind the `at` slots that stand there. In a sound block no code is bad and none leads above u;
// the definition stops there for any bytes, and so does this.
// Kept: beside `gather_known`, and with what makes up a block one by one. It is public, and promises this of any bytes.
pub fn gather_codes(s: &[u8], count: u32, first: u32, u: u32, slots: &mut [u32], at: usize) -> usize
    requires { (first ≤ u) × (at + count ≤ length slots.old) }
    ensures { Front (take at slots.old ++ (read_codes u count first s.now).slots) result slots.new }
{
    let end = at + count as usize;
    let mut p: usize = 0;
    let mut slot = first;
    for w in at..end {
        let Some(code) = read_code(s, p) else {
            return w;
        };
        if u - slot <= code.value {
            return w;
        }
        slot = slot + code.value + 1;
        slots[w] = slot;
        p = code.next;
    }
    end
}

// Puts the slots of a block that has as many bytes as codes behind the `at` slots that stand there. Each byte is a code then, and where it ends is not asked: nothing but a sum
// leads from one turn to the next.
fn gather_ones(block: Block<'_>, slots: &mut [u32], at: usize) -> usize
    requires { (length block.codes.now ≡ block.count) × (at + block.count ≤ length slots.old) }
    ensures { Front (take at slots.old ++ (read_block block.entry).slots) result slots.new }
{
    let mut slot = block.first;
    for (p, gap) in block.codes.iter().enumerate() {
        slot = slot + u32::from(*gap) + 1;
        slots[at + p] = slot;
    }
    at + block.codes.len()
}

// Puts the slots that the codes of a block give behind the `at` slots that stand there. The block is known to have no fault, so that a code stands wherever one is left.
fn gather_known(block: Block<'_>, slots: &mut [u32], at: usize) -> usize
    requires { at + block.count ≤ length slots.old }
    ensures { Front (take at slots.old ++ (read_block block.entry).slots) result slots.new }
{
    if block.codes.len() == block.count as usize {
        return gather_ones(block, slots, at);
    }
    let end = at + block.count as usize;
    let mut p: usize = 0;
    let mut slot = block.first;
    for w in at..end {
        let got = known_code(block.codes, p);
        slot = slot + got.value + 1;
        slots[w] = slot;
        p = got.next;
    }
    end
}

// Puts the slots of all blocks behind the `at` slots that stand there.
fn gather_blocks(list: &Held<'_>, slots: &mut [u32], at: usize) -> usize
    requires { at + list.now.parts.n ≤ length slots.old }
    ensures { let h = list.now in Front (take at slots.old ++ flatten (tail_of h.parts.u h.parts.block h.rec.now).blocks) result slots.new }
{
    let mut w = at;
    for nth in 0..list.parts.m {
        let block = list.block(nth);
        slots[w] = block.first;
        w = gather_known(block, slots, w + 1);
    }
    w
}

// Puts all slots of a list to the front.
#[tactic(auto, using(crate::proofs::InBlocks::list_steps))]
pub fn gather(list: &Held<'_>, slots: &mut [u32]) -> usize
    requires { count_of list.now.rec.now ≤ length slots.old }
    ensures { Front (slots_of list.now) result slots.new }
{
    let w = gather_bits(list.bits(), list.parts.cut, slots);
    gather_blocks(list, slots, w)
}

// Puts 0 into every place from `from` on, one by one: in std's `fill` no place could be passed over, as the edit `every_second_place_left` does.
#[tactic(auto, using(laws::proofs::Clearing::none_left, laws::proofs::Clearing::one_more))]
pub fn clear(slots: &mut [u32], from: usize)
    requires { from ≤ length slots.old }
    ensures { slots.new ≡ take from slots.old ++ replicate (length slots.old - from) 0 }
{
    for i in from..slots.len() {
        slots[i] = 0;
    }
}
