// One block read from its first slot on, up to a slot that is not below x. It tells the codes that it took, and took them: eight of one byte may be taken at
// once, and none that it reports is left unread.
#![tactic(auto)]

ghost use Rattle.std.specs.Prelude.{◌≡◌, ◌+◌, ◌≤◌, ◌<◌, ltb, length};
ghost use Rattle.paper.specs.Lists.{pick};
ghost use Rattle.paper.specs.Walk.{seek};
ghost use Rattle.codes.specs.InBlock.{stopped, read_block};
ghost use Rattle.seeks.specs.Sought.{left, sought, Leads};

use codes::{Block, Stopped, known_code};
use glance::eight;

// How far the reading came: the codes that are read, and the slot read last.
#[derive(Clone, Copy)]
struct Reached {
    codes: u32,
    slot: u32,
}

// The slot behind y by the code b, where y is below x; else y.
fn onward(y: u32, b: u32, x: u32) -> u32
    requires { y < x → y + b + 1 ≤ 4294967295 }
    ensures { result ≡ pick (ltb y x) (y + b + 1) y }
{
    if y < x { y + b + 1 } else { y }
}

// Where one of the next eight codes leads to x or above it: each of them is taken, or not, with no branch on which it is.
fn in_eight(block: Block<'_>, x: u32, from: Reached) -> Reached
    requires { (length block.codes.now ≡ block.count) × (from.codes + 8 ≤ block.count) × (from.slot ≤ block.u) × ((left block from).fault ≡ 0) }
    ensures { Leads block.entry x (sought block.entry x from) result }
{
    let at = from.codes as usize;
    let mut here = from;
    for b in &block.codes[at..at + 8] {
        let more = u32::from(here.slot < x);
        here.slot = onward(here.slot, u32::from(*b), x);
        here.codes = here.codes + more;
    }
    here
}

// Goes ahead eight codes at a time where a block has as many bytes as codes, each of which is one of its bytes then: how far it came. In a short block it
// would cost more than it saves.
fn ahead(block: Block<'_>, x: u32) -> Reached
    ensures { Leads block.entry x (stopped 0 (seek x block.entry.first (read_block block.entry).slots)) result }
{
    let n = block.codes.len();
    let mut here = Reached {
        codes: 0,
        slot: block.first,
    };
    if block.count < 32 || n != block.count as usize {
        return here;
    }
    for hop in 0..n / 8 {
        let to = here.slot + eight(block.codes, 8 * hop) + 8;
        if x <= to {
            return in_eight(block, x, here);
        }
        here = Reached {
            codes: here.codes + 8,
            slot: to,
        };
    }
    here
}

// Reads a block from its first slot on until a slot that is not below x, or to its end.
#[tactic(auto, using(crate::proofs::Turns::seeks))]
pub fn seek_in(block: Block<'_>, x: u32) -> Stopped
    ensures { result ≡ stopped 0 (seek x block.entry.first (read_block block.entry).slots) }
{
    let near = ahead(block, x);
    let mut at = near.codes as usize;
    let mut slot = near.slot;
    for codes in near.codes..block.count {
        if x <= slot {
            return Stopped::at(slot, codes);
        }
        let code = known_code(block.codes, at);
        slot = slot + code.value + 1;
        at = code.next;
    }
    if x <= slot {
        return Stopped::at(slot, block.count);
    }
    Stopped {
        slot: None,
        codes: block.count,
    }
}
