// Writing a record. Its slots are judged and its parts measured before anything is written; then each part goes to its place. Names are the
// paper's: slots up to the cut go into bits, those above it into the tail, in blocks of `block` slots.
#![tactic(auto)]

ghost use Rattle.std.specs.Prelude.{◌≡◌, ◌+◌, ◌*◌, ◌≤◌, ◌<◌, false, [], ◌++◌, length};
ghost use Rattle.std.proofs.lemmas.List.Edits.{sets};
ghost use Rattle.paper.specs.Lists.{on_front};
ghost use Rattle.paper.specs.Bytes.{u32_bytes};
ghost use Rattle.paper.specs.Refusal.{good_slots};
ghost use Rattle.paper.specs.Fault.{told};
ghost use Rattle.paper.specs.Write.{gap_codes, skip_entries, encode};
ghost use Rattle.meaning.proofs.Rising.{Ascends};
ghost use Rattle.meaning.proofs.Parting.{up_to};
ghost use Rattle.pack.specs.Measures.{RisesTo, before_room, bits_for, blocks_for, tail_codes, Judged, LaidOut};

use codes::{code_size, put_code};
use frame::check_sizes;
use paper::refusal::{Fault, Refusal};
use record::ceil;
use words::{put_bit, put_u32};

// How many slots are not above the one before. There is no way out of the loop but its end, so that the compiler holds several slots at once
// against those before them.
// Kept: `windows(2)` and `zip` were tried; their loops take a quarter longer than this one, and with `filter` they go slot by slot.
fn falls(slots: &[u32]) -> usize
    ensures { result ≡ 0 → RisesTo slots.now (length slots.now) }
{
    let mut count: usize = 0;
    for i in 1..slots.len() {
        count += usize::from(slots[i] <= slots[i - 1]);
    }
    count
}

// Whether some slot does not rise within 1..u. The ends are looked at first, then what lies between them.
fn amiss(slots: &[u32], u: u32) -> bool
    ensures { result ≡ false → Ascends u 0 slots.now }
{
    let n = slots.len();
    n != 0 && (slots[0] == 0 || u < slots[n - 1] || falls(slots) != 0)
}

// How many slots at the front rise, each above the one before, within 1..u: one by one.
#[tactic(auto, using(crate::proofs::Judging::goods))]
fn good_front(slots: &[u32], u: u32) -> usize
    ensures { (result ≡ good_slots u 0 slots.now) × (result ≤ u) }
{
    let mut prev: u32 = 0;
    for (i, x) in slots.iter().enumerate() {
        if *x <= prev || u < *x {
            return i;
        }
        prev = *x;
    }
    slots.len()
}

// The same, all at once where all do.
fn good_slots(slots: &[u32], u: u32) -> usize
    ensures { (result ≡ good_slots u 0 slots.now) × (result ≤ u) }
{
    if amiss(slots, u) {
        return good_front(slots, u);
    }
    slots.len()
}

// The refusals of writing but 12: 4, 15, 13.
#[tactic(auto, using(crate::proofs::Judging::writings))]
pub fn check_write(u: u32, block: u32, cut: u32, slots: &[u32]) -> Result<(), Refusal>
    ensures { told result ≡ before_room u block cut slots.now }
{
    check_sizes(u, block)?;
    if u < cut {
        return Err(Fault::Cut.into());
    }
    let good = good_slots(slots, u);
    let place = good as u32;
    if good < slots.len() {
        return Err(Refusal {
            fault: Fault::Rising,
            place,
        });
    }
    Ok(())
}

// How many slots lie up to the cut. They stand at the front, since all slots rise.
// Kept: that slots rise is asked for of each part of them, from another slot on, so no one value has it; block, cut and slots come from `slots::write` one by one, as C hands them on.
fn slots_to(slots: &[u32], cut: u32) -> usize
    requires { Ascends 1048576 0 slots.now }
    ensures { result ≡ length (up_to cut slots.now) }
{
    slots.partition_point(|x| *x <= cut)
}

// How many bytes the codes of the slots behind `prev` take.
#[tactic(auto, using(crate::proofs::Gaps::measures))]
fn gaps_size(prev: u32, slots: &[u32]) -> usize
    requires { (prev ≤ 1048576) × Ascends 1048576 prev slots.now }
    ensures { (result ≡ length (gap_codes prev slots.now)) × (result ≤ 3 * length slots.now) }
{
    let mut last = prev;
    let mut size: usize = 0;
    for &x in slots {
        size += code_size(x - last - 1);
        last = x;
    }
    size
}

// How many bytes the codes of a tail take: block by block, since the first slot of a block has no code.
fn tail_size(high: &[u32], block: u32) -> usize
    requires { (0 < block) × Ascends 1048576 0 high.now }
    ensures { (result ≡ length (tail_codes block high.now)) × (result ≤ 3 * length high.now) }
{
    let mut size: usize = 0;
    for slots in high.chunks(block as usize) {
        size += gaps_size(slots[0], &slots[1..]);
    }
    size
}

// Where the parts of a record go: the head, then the bits of the first `low` slots; the skip entries from `entries` on; the code bytes
// from `codes` on, up to `end`.
#[derive(Drop)]
pub struct Layout {
    pub low: usize,
    pub entries: usize,
    pub codes: usize,
    pub end: usize,
}

// Measures the record of these slots.
pub fn lay_out(block: u32, cut: u32, slots: &[u32]) -> Layout
    requires { Judged block cut slots.now }
    ensures { LaidOut block cut slots.now result }
{
    let low = slots_to(slots, cut);
    let n = (slots.len() - low) as u32;
    let entries = 12 + ceil(cut, 8);
    let codes = entries + 8 * ceil(n, block);
    let end = codes + tail_size(&slots[low..], block);
    Layout {
        low,
        entries,
        codes,
        end,
    }
}

// Writes the head: the cut, the tail count and the code length.
#[tactic(auto, using(crate::proofs::Laying::three_words))]
fn put_head(room: &mut [u8], cut: u32, n: u32, len: u32)
    requires { 12 ≤ length room.old }
    ensures { room.new ≡ sets room.old 0 (u32_bytes cut ++ u32_bytes n ++ u32_bytes len) }
{
    put_u32(room, 0, cut);
    put_u32(room, 4, n);
    put_u32(room, 8, len);
}

// Sets the bits of these slots, where none is set.
#[tactic(auto, using(crate::proofs::Marking::marks))]
fn mark(bits: &mut [u8], low: &[u32])
    requires { (bits.old ≡ bits_for [] (length bits.old)) × Ascends (8 * length bits.old) 0 low.now }
    ensures { bits.new ≡ bits_for low.now (length bits.old) }
{
    for &x in low {
        put_bit(bits, x);
    }
}

// Writes the bits of these slots, and no other: those beyond the cut are zero.
fn put_bits(bits: &mut [u8], low: &[u32])
    requires { Ascends (8 * length bits.old) 0 low.now }
    ensures { bits.new ≡ bits_for low.now (length bits.old) }
{
    bits.fill(0);
    mark(bits, low);
}

// Writes the codes of the slots behind `prev` from `at` on, and tells the position behind them.
#[tactic(auto, using(crate::proofs::Gaps::puts))]
fn put_gaps(room: &mut [u8], at: usize, prev: u32, slots: &[u32]) -> usize
    requires { (prev ≤ 1048576) × Ascends 1048576 prev slots.now × (at + length (gap_codes prev slots.now) ≤ length room.old) }
    ensures { (result ≡ at + length (gap_codes prev slots.now)) × (room.new ≡ sets room.old at (gap_codes prev slots.now)) }
{
    let mut last = prev;
    let mut to = at;
    for &x in slots {
        to = put_code(room, to, x - last - 1);
        last = x;
    }
    to
}

// Writes a skip entry: the first slot of a block, and where its codes begin among the code bytes.
#[tactic(auto, using(crate::proofs::Laying::two_words))]
fn put_entry(room: &mut [u8], at: usize, first: u32, offset: u32)
    requires { at + 8 ≤ length room.old }
    ensures { room.new ≡ sets room.old at (u32_bytes first ++ u32_bytes offset) }
{
    put_u32(room, at, first);
    put_u32(room, at + 4, offset);
}

// Writes a tail, block by block: the skip entries from `entries` on, the codes from `codes` on.
fn put_tail(room: &mut [u8], entries: usize, codes: usize, block: u32, high: &[u32])
    requires { (0 < block) × Ascends 1048576 0 high.now × (entries + 8 * length (blocks_for block high.now) ≡ codes) × (codes + length (tail_codes block high.now) ≤ length room.old) }
    ensures { room.new ≡ sets (sets room.old entries (skip_entries 0 (blocks_for block high.now))) codes (tail_codes block high.now) }
{
    let mut entry = entries;
    let mut at = codes;
    for slots in high.chunks(block as usize) {
        let offset = (at - codes) as u32;
        put_entry(room, entry, slots[0], offset);
        at = put_gaps(room, at, slots[0], &slots[1..]);
        entry += 8;
    }
}

// Writes a record that was laid out.
pub fn put_record(room: &mut [u8], lay: Layout, block: u32, cut: u32, slots: &[u32])
    requires { Judged block cut slots.now × LaidOut block cut slots.now lay × (lay.end ≤ length room.old) }
    ensures { room.new ≡ on_front (encode block cut slots.now) room.old }
{
    let low = lay.low;
    let entries = lay.entries;
    let codes = lay.codes;
    let n = (slots.len() - low) as u32;
    let len = (lay.end - codes) as u32;
    put_head(room, cut, n, len);
    put_bits(&mut room[12..entries], &slots[..low]);
    put_tail(room, entries, codes, block, &slots[low..]);
}
