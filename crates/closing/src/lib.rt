// Closing an index: every refusal first, then the directory and the trailer behind the records.
#![tactic(auto)]

ghost use Rattle.std.specs.Prelude.{◌≡◌, ◌+◌, ◌*◌, ◌≤◌, ◌<◌, length};
ghost use mathlib.Core.List.{map, flatten};
ghost use Rattle.std.proofs.lemmas.List.Edits.{sets};
ghost use Rattle.paper.specs.Bytes.{u32_bytes};
ghost use Rattle.paper.specs.Refusal.{tag, finished};
ghost use Rattle.paper.specs.Fault.{told};
ghost use Rattle.paper.specs.Close.{start_in, close_fault, frame_bytes};
ghost use Rattle.closing.specs.Given.{room_fault, given_fault};
ghost use Rattle.closing.specs.Trailer.{trailer};

use frame::{Starts, TAG, check_count, check_records, check_sizes, check_starts};
use paper::refusal::{Fault, Refusal};
use words::put_u32;

// The starts that closing is given, of records in the first `total` bytes of a buffer.
#[derive(Clone, Copy)]
struct Given<'a> {
    starts: &'a [u32],
    total: u32,
}

// Behind the last record the directory is to start.
impl<'a> Starts for Given<'a> {
    ghost begins = { λ g. start_in g.starts.now g.total };

    ghost many = { λ g. length g.starts.now };

    fn count(&self) -> usize {
        self.starts.len()
    }

    fn start(&self, i: usize) -> usize {
        self.starts.get(i).copied().unwrap_or(self.total) as usize
    }
}

// The size of the finished index, in 64 bits, where no sum wraps.
// Kept: that there are 4,096 starts at most is asked for here and in two functions behind, and `total` goes with `starts` in the public ones. `closed_size` and `put_frame` take them as
// `slots::close` is given them; between the tests they are one, `Given`.
pub fn closed_size(total: u32, starts: &[u32]) -> usize
    requires { length starts.now ≤ 4096 }
    ensures { result ≡ finished total (length starts.now) }
{
    total as usize + 4 * starts.len() + 24
}

// 1 of the finished index, 12 of the room for it, then 5.
#[tactic(auto, using(crate::proofs::Checks::rooms))]
fn check_room(room: usize, given: Given<'_>) -> Result<(), Refusal>
    requires { length given.starts.now ≤ 4096 }
    ensures { told result ≡ room_fault room given.entry.total given.entry.starts.now }
{
    let size = closed_size(given.total, given.starts);
    if 16777216 < size {
        return Err(Fault::Size.into());
    }
    if room < size {
        let place = size as u32;
        return Err(Refusal {
            fault: Fault::Room,
            place,
        });
    }
    check_starts(&given)?;
    Ok(())
}

// Every refusal before the lists: 4 of u, of B and of how many lists there are; then 1, 12 and 5.
#[tactic(auto, using(crate::proofs::Checks::before_lists))]
fn check_given(room: usize, u: u32, block: u32, given: Given<'_>) -> Result<(), Refusal>
    ensures { told result ≡ given_fault room u block given.entry.total given.entry.starts.now }
{
    check_sizes(u, block)?;
    check_count(given.count())?;
    check_room(room, given)
}

// Every refusal of closing: those before the lists, then the records, as looking judges them. Nothing is written here.
#[tactic(auto, using(crate::proofs::Checks::closings))]
pub fn check_close(
    room: &[u8],
    u: u32,
    block: u32,
    total: u32,
    starts: &[u32],
) -> Result<(), Refusal>
    ensures { told result ≡ close_fault room.now u block total starts.now }
{
    let given = Given { starts, total };
    check_given(room.len(), u, block, given)?;
    check_records(room, u, block, &given)
}

// Writes the directory: the starts, one after the other, from `at` on.
#[tactic(auto, using(crate::proofs::Puts::puttings))]
fn put_starts(room: &mut [u8], at: usize, starts: &[u32])
    requires { at + 4 * length starts.now ≤ length room.old }
    ensures { room.new ≡ sets room.old at (flatten (map u32_bytes starts.now)) }
{
    for (i, start) in starts.iter().enumerate() {
        put_u32(room, at + 4 * i, *start);
    }
}

// Writes the tag from `at` on, from the very bytes that looking compares with.
fn put_tag(room: &mut [u8], at: usize)
    requires { at + 4 ≤ length room.old }
    ensures { room.new ≡ sets room.old at tag }
{
    room[at..at + 4].copy_from_slice(&TAG);
}

// Writes the trailer from `at` on. The edition is 1.
fn put_trailer(room: &mut [u8], at: usize, u: u32, block: u32, k: u32, total: u32)
    requires { at + 24 ≤ length room.old }
    ensures { room.new ≡ sets room.old at (trailer u block k total) }
{
    put_u32(room, at, 1);
    put_u32(room, at + 4, u);
    put_u32(room, at + 8, block);
    put_u32(room, at + 12, k);
    put_u32(room, at + 16, total);
    put_tag(room, at + 20);
}

// Writes directory and trailer behind the records, and nothing else.
pub fn put_frame(room: &mut [u8], u: u32, block: u32, total: u32, starts: &[u32])
    requires { (length starts.now ≤ 4096) × (finished total (length starts.now) ≤ length room.old) }
    ensures { room.new ≡ sets room.old total (frame_bytes u block total starts.now) }
{
    let k = starts.len();
    let at = total as usize;
    put_starts(room, at, starts);
    put_trailer(room, at + 4 * k, u, block, k as u32, total);
}
