// The doubling search over the skip entries of a list, the block that it leads to, and the next slot of a list from a slot on. There is one search:
// it holds entries against x, says how many, and leads to a block j; the next slot goes by that block and the one behind it alone, and a slot is
// found where the next one is the slot itself.
#![tactic(auto)]

ghost use Rattle.std.specs.Prelude.{◌≡◌, ℕ, ◌+◌, ◌-◌, ◌*◌, ◌≤◌, ◌<◌, length};
ghost use Rattle.paper.specs.Lists.{some_slot, has, first_from};
ghost use Rattle.paper.specs.Held.{entry_of};
ghost use Rattle.paper.specs.Search.{halved, searched};
ghost use Rattle.paper.specs.Walk.{seek_in, or_behind, tried};
ghost use Rattle.codes.specs.InBlock.{stopped};
ghost use Rattle.record.specs.Holds.{list_of, slots_of};
ghost use Rattle.search.specs.Told.{found, reached, told};

use codes::Stopped;
use record::Held;
use seeks::seek_in;
use words::{bit, next_bit, u32_at};

// What a search gives: j, and how many entries it looked at.
#[derive(Drop)]
pub struct Found {
    pub j: usize,
    pub looks: u32,
}

impl Found {
    // The same, `looks` more having been made before.
    fn after(self, looks: u32) -> Found
        requires { looks + self.looks < 4294967296 }
        ensures { result ≡ record { j = self.j; looks = looks + self.looks } }
    {
        Found {
            j: self.j,
            looks: looks + self.looks,
        }
    }
}

// The entry s(j), the first slot of block j, blocks being counted from 1. s(0), the cut, is never looked at.
#[tactic(auto, using(crate::proofs::Looking::entry_told))]
fn entry(entries: &[u8], j: usize) -> u32
    requires { (1 ≤ j) × (8 * j ≤ length entries.now) }
    ensures { result ≡ entry_of 0 entries.now j }
{
    u32_at(entries, 8 * (j - 1))
}

// The gap between a good position lo and a failed one hi: a look at its middle, and the same rule again on one half.
// Kept: a halving of its own, by the clause that holds it to `halved`: the looks are counted and every middle is laid down, and partition_point tells neither.
#[tactic(auto, using(crate::proofs::Looking::narrow))]
fn halve(entries: &[u8], x: u32, lo: usize, hi: usize) -> Found
    requires { (lo ≤ hi) × (8 * hi ≤ length entries.now + 8) × (hi ≤ 1048577) }
    ensures { (result ≡ found (halved (entry_of 0 entries.now) x lo hi)) × (result.looks ≤ hi - lo) }
{
    if hi - lo <= 1 {
        return Found { j: lo, looks: 0 };
    }
    let mid = lo + (hi - lo) / 2;
    if entry(entries, mid) <= x {
        return halve(entries, x, mid, hi).after(1);
    }
    halve(entries, x, lo, mid).after(1)
}

// The search for x from the finger: positions at doubling distances while their entries are good, then the gap behind the last good one.
// Kept: a `while`, since the distance doubles: a chain that makes the distances first is no plainer.
#[tactic(auto, using(crate::proofs::Looking::begin))]
pub fn search(entries: &[u8], m: usize, finger: usize, x: u32) -> Found
    requires { (finger ≤ m) × (m ≤ 1048576) × (8 * m ≤ length entries.now) }
    ensures { result ≡ found (searched (entry_of 0 entries.now) x m finger) }
{
    let mut lo = finger;
    let mut d: usize = 1;
    let mut looks: u32 = 0;
    while d <= m - finger {
        let at = finger + d;
        looks += 1;
        if x < entry(entries, at) {
            return halve(entries, x, lo, at).after(looks);
        }
        lo = at;
        d = 2 * d;
    }
    halve(entries, x, lo, m + 1).after(looks)
}

// Reads along block j, counted from 1, up to a slot that is not below x, or to its end.
#[tactic(auto, using(crate::proofs::Looking::block_told))]
fn in_block(list: &Held<'_>, j: usize, x: u32) -> Stopped
    requires { (1 ≤ j) × (j ≤ list.now.parts.m) }
    ensures { result ≡ stopped 0 (seek_in (list_of list.now).blocks x j) }
{
    seek_in(list.block(j - 1), x)
}

// The slot s; where there is none, the first slot of the block behind block j, if one follows. No look is made for it, and no code read.
#[tactic(auto, using(crate::proofs::Trials::behind))]
fn or_behind(list: &Held<'_>, j: usize, s: Option<u32>) -> Option<u32>
    requires { j ≤ list.now.parts.m }
    ensures { (v : ℕ) → s ≡ some_slot v → result ≡ some_slot (or_behind (list_of list.now) j v) }
{
    if s.is_some() {
        return s;
    }
    if list.parts.m <= j {
        return None;
    }
    Some(entry(list.entries(), j + 1))
}

// What a step in a list tells; the finger from then on; and what it cost.
#[derive(Drop)]
pub struct Step<T> {
    pub told: T,
    pub finger: usize,
    pub looks: u32,
    pub codes: u32,
}

// Above the cut: the search gives j, and block j tells, or where it runs out the block behind it; j = 0 is before the first block. The finger
// stays at j, whichever block tells.
// Kept: that the finger is not past m, and that x is no 0, is asked for here and in the functions behind. Finger and slot change at every step, and a struct of them and the
// list would be made anew each time.
#[tactic(auto, using(crate::proofs::Trials::j_within))]
fn seek_slot(list: &Held<'_>, finger: usize, x: u32) -> Step<Option<u32>>
    requires { (finger ≤ list.now.parts.m) × (list.now.parts.cut < x) }
    ensures { (result ≡ reached (tried (list_of list.now) finger x)) × (result.finger ≤ list.now.parts.m) }
{
    let led = search(list.entries(), list.parts.m, finger, x);
    let j = led.j;
    if j == 0 {
        let first = or_behind(list, 0, None);
        return Step {
            told: first,
            finger: 0,
            looks: led.looks,
            codes: 0,
        };
    }
    let stop = in_block(list, j, x);
    let slot = or_behind(list, j, stop.slot);
    Step {
        told: slot,
        finger: j,
        looks: led.looks,
        codes: stop.codes,
    }
}

// The next slot of a list from x on: up to the cut by the bits, and where they run out by the first block, with no search, and the finger stays.
pub fn next_slot(list: &Held<'_>, finger: usize, x: u32) -> Step<Option<u32>>
    requires { (finger ≤ list.now.parts.m) × (0 < x) }
    ensures { (result ≡ reached (tried (list_of list.now) finger x)) × (result.finger ≤ list.now.parts.m) }
{
    if list.parts.cut < x {
        return seek_slot(list, finger, x);
    }
    let near = next_bit(list.bits(), x, list.parts.cut + 1 - x);
    let slot = or_behind(list, 0, near);
    Step {
        told: slot,
        finger,
        looks: 0,
        codes: 0,
    }
}

// One candidate tried in a list: it is found where the next slot from it on is the candidate itself. Up to the cut its own bit says so, and which
// bit is the next one is not asked: a list with few bits would be gone through again and again.
#[tactic(auto, using(crate::proofs::Trials::by_bit))]
pub fn try_slot(list: &Held<'_>, finger: usize, x: u32) -> Step<bool>
    requires { (finger ≤ list.now.parts.m) × (0 < x) }
    ensures { (result ≡ told x (tried (list_of list.now) finger x)) × (result.finger ≤ list.now.parts.m) }
{
    if x <= list.parts.cut {
        let found = bit(list.bits(), x);
        return Step {
            told: found,
            finger,
            looks: 0,
            codes: 0,
        };
    }
    let next = next_slot(list, finger, x);
    Step {
        told: next.told == Some(x),
        finger: next.finger,
        looks: next.looks,
        codes: next.codes,
    }
}

// Whether a list holds a slot.
#[tactic(auto, using(crate::proofs::Trials::holds_told))]
pub fn holds(list: &Held<'_>, x: u32) -> bool
    requires { 0 < x }
    ensures { result ≡ has x (slots_of list.now) }
{
    try_slot(list, 0, x).told
}

// The least slot of a list that is not below x, if there is one.
#[tactic(auto, using(crate::proofs::Trials::next_told))]
pub fn next_from(list: &Held<'_>, x: u32) -> Option<u32>
    requires { 0 < x }
    ensures { result ≡ some_slot (first_from x (slots_of list.now)) }
{
    next_slot(list, 0, x).told
}
