// The paper's index, and indexes made for an example: put together from numbers and bytes where they are to be refused, and by the library's own
// writing and closing where they are sound. What would not fit the room is left out, so that nothing has to be said of lengths.
ghost use Rattle.std.specs.Prelude.{◌≡◌, length};

use slots::{close, write};

// The paper's index: list 0 as gaps, list 1 with the cut 16, the directory, the trailer.
pub const PAPER: [u8; 111] = *b"\
    \x00\x00\x00\x00\x0F\x00\x00\x00\x0B\x00\x00\x00\
    \x01\x00\x00\x00\x00\x00\x00\x00\x08\x00\x00\x00\x03\x00\x00\x00\
    \x12\x00\x00\x00\x06\x00\x00\x00\x1B\x00\x00\x00\x09\x00\x00\x00\
    \x02\x00\x00\x03\x02\x00\x01\x04\x00\x00\x01\
    \x10\x00\x00\x00\x03\x00\x00\x00\x02\x00\x00\x00\x28\x11\
    \x1A\x00\x00\x00\x00\x00\x00\x00\x03\x00\
    \x00\x00\x00\x00\x37\x00\x00\x00\
    \x01\x00\x00\x00\x20\x00\x00\x00\x04\x00\x00\x00\x02\x00\x00\x00\
    \x4F\x00\x00\x00\x53\x4C\x4F\x54";

// Room for any index that an example makes. (Of a function the prover sees the contract only, and so not the zeros one by one.)
pub fn room() -> [u8; 512]
    ensures { 512 ≡ length result }
{
    [0; 512]
}

// The first `length` bytes of a buffer.
pub fn front(room: &[u8], length: usize) -> &[u8] {
    room.get(..length).unwrap_or(&[])
}

// Puts one number behind the first `at` bytes, and tells where it ends.
pub fn put_word(room: &mut [u8], at: usize, word: u32) -> usize {
    if room.len() < 4 || room.len() - 4 < at {
        return at;
    }
    room[at..at + 4].copy_from_slice(&word.to_le_bytes());
    at + 4
}

// Puts numbers one after the other, and tells where they end.
pub fn put_words(room: &mut [u8], at: usize, words: &[u32]) -> usize {
    let mut end = at;
    for word in words {
        end = put_word(room, end, *word);
    }
    end
}

// Puts bytes one after the other, as many as fit, and tells where they end.
pub fn put_bytes(room: &mut [u8], at: usize, bytes: &[u8]) -> usize {
    if room.len() < at {
        return at;
    }
    let n = bytes.len().min(room.len() - at);
    room[at..at + n].copy_from_slice(&bytes[..n]);
    at + n
}

// Sets bits of one byte of a record.
pub fn put_bits(room: &mut [u8], start: u32, at: u32, bits: u8) {
    let to = start as usize + at as usize;
    if to < room.len() {
        room[to] |= bits;
    }
}

// Fills a slice with the multiples of `step`, from the first on.
pub fn fill(slots: &mut [u32], step: u32) {
    let mut multiple: u32 = 0;
    for slot in slots.iter_mut() {
        multiple = multiple.wrapping_add(step);
        *slot = multiple;
    }
}

// Writes a list's record behind the first `at` bytes, and tells where it ends.
pub fn put_list(room: &mut [u8], at: u32, u: u32, block: u32, cut: u32, slots: &[u32]) -> u32 {
    let from = at as usize;
    if room.len() < from {
        return at;
    }
    let made = write(u, block, cut, slots, &mut room[from..]);
    let end = u64::from(at) + u64::from(made.length);
    if 65536 < end {
        return at;
    }
    end as u32
}

// Closes the index whose records fill the first `total` bytes, and tells its length.
pub fn close_lists(room: &mut [u8], u: u32, block: u32, total: u32, starts: &[u32]) -> usize {
    let made = close(room, u, block, total, starts);
    made.length as usize
}
