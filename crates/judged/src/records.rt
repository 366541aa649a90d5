// Looking at indexes of one list, most of whose records are at fault.
use sheet::make;
use sheet::make::{front, put_bytes, put_words};
use sheet::show::verdict;
use slots::look;
use std::io;

// The line of an index whose one record has these numbers (cut, tail count, code length), bits, entries (first slot and offset by turns) and codes.
fn look_at(
    rt: &impl Print,
    text: &str,
    u: u32,
    block: u32,
    head: &[u32],
    bits: &[u8],
    entries: &[u32],
    codes: &[u8],
) -> io::Result<()> {
    let mut room = make::room();
    let from = put_words(&mut room, 0, head);
    let skips = put_bytes(&mut room, from, bits);
    let coded = put_words(&mut room, skips, entries);
    let total = put_bytes(&mut room, coded, codes);
    if 65536 < total {
        return Ok(());
    }
    let length = put_words(
        &mut room,
        total,
        &[0, 1, u, block, 1, total as u32, 0x544F4C53],
    );
    verdict(rt, text, look(front(&room, length)))
}

// Block 0's first slot is above u, and block 1's end lies beyond the codes: block 0 is judged first.
fn order(rt: &impl Print) -> io::Result<()> {
    look_at(
        rt,
        "order of faults",
        32,
        2,
        &[0, 5, 2],
        b"",
        &[40, 0, 41, 1, 42, 99],
        b"\x00\x00",
    )
}

// A list of two slots, the first of them 1, with u 20000.
fn look_at_codes(rt: &impl Print, text: &str, size: u32, codes: &[u8]) -> io::Result<()> {
    look_at(rt, text, 20000, 2, &[0, 2, size], b"", &[1, 0], codes)
}

fn codes(rt: &impl Print) -> io::Result<()> {
    look_at_codes(rt, "code 80 80 01", 3, b"\x80\x80\x01")?;
    look_at_codes(rt, "code 80 80 00", 3, b"\x80\x80\x00")?;
    look_at_codes(rt, "code 80 00", 2, b"\x80\x00")?;
    look_at_codes(rt, "code 80 80 80 01", 4, b"\x80\x80\x80\x01")?;
    look_at_codes(rt, "code 80 80", 2, b"\x80\x80")?;
    look_at_codes(rt, "bytes behind the codes", 2, b"\x00\x00")
}

fn blocks(rt: &impl Print) -> io::Result<()> {
    look_at(rt, "first slot 0", 20000, 2, &[0, 1, 0], b"", &[0, 0], b"")?;
    look_at(
        rt,
        "first slot at the cut",
        32,
        2,
        &[8, 1, 0],
        b"\xFF",
        &[8, 0],
        b"",
    )?;
    look_at(
        rt,
        "first offset 1",
        32,
        2,
        &[0, 1, 1],
        b"",
        &[1, 1],
        b"\x00",
    )?;
    look_at(
        rt,
        "end before start",
        32,
        2,
        &[0, 5, 2],
        b"",
        &[1, 0, 5, 1, 9, 0],
        b"\x00\x00",
    )
}

// Records whose numbers cannot be those of a list.
fn sums(rt: &impl Print) -> io::Result<()> {
    look_at(rt, "n FFFFFFFF", 32, 2, &[0, 0xFFFFFFFF, 0], b"", &[], b"")?;
    look_at(rt, "L without tail", 32, 2, &[0, 0, 1], b"", &[], b"\x00")
}

// A list of bits alone, with u 32.
fn look_at_bits(rt: &impl Print, text: &str, cut: u32, bits: &[u8]) -> io::Result<()> {
    look_at(rt, text, 32, 2, &[cut, 0, 0], bits, &[], b"")
}

// Slots 1 and 9 with the cut 9, and then with each of the seven unused bits.
fn unused(rt: &impl Print) -> io::Result<()> {
    look_at_bits(rt, "cut 9, bits 80 80", 9, b"\x80\x80")?;
    look_at_bits(rt, "cut 9, bits 80 C0", 9, b"\x80\xC0")?;
    look_at_bits(rt, "cut 9, bits 80 A0", 9, b"\x80\xA0")?;
    look_at_bits(rt, "cut 9, bits 80 90", 9, b"\x80\x90")?;
    look_at_bits(rt, "cut 9, bits 80 88", 9, b"\x80\x88")?;
    look_at_bits(rt, "cut 9, bits 80 84", 9, b"\x80\x84")?;
    look_at_bits(rt, "cut 9, bits 80 82", 9, b"\x80\x82")?;
    look_at_bits(rt, "cut 9, bits 80 81", 9, b"\x80\x81")
}

// Cuts that end a byte, the cut 0, and the cut u inside a byte.
fn cuts(rt: &impl Print) -> io::Result<()> {
    look_at_bits(rt, "cut 8, bits FF", 8, b"\xFF")?;
    look_at_bits(rt, "cut 0, no bits", 0, b"")?;
    look_at_bits(rt, "cut 32, bits FF FF FF FF", 32, b"\xFF\xFF\xFF\xFF")?;
    let all = b"\xFF\xFF\xFF\xF8";
    look_at(
        rt,
        "u 29, cut 29, bits FF FF FF F8",
        29,
        2,
        &[29, 0, 0],
        all,
        &[],
        b"",
    )?;
    let more = b"\xFF\xFF\xFF\xFC";
    look_at(
        rt,
        "u 29, cut 29, bits FF FF FF FC",
        29,
        2,
        &[29, 0, 0],
        more,
        &[],
        b"",
    )
}

// An unused bit beside another fault of the record: 6 is judged before it, the blocks behind it.
fn beside(rt: &impl Print) -> io::Result<()> {
    let bits = b"\x80\xC0";
    look_at(rt, "6 and 17", 32, 2, &[9, 0, 1], bits, &[], b"\x00")?;
    look_at(
        rt,
        "17 and a faulty block",
        32,
        2,
        &[9, 1, 0],
        bits,
        &[9, 0],
        b"",
    )
}

// All lines of this part, in their order.
pub fn run(rt: &impl Print) -> io::Result<()> {
    order(rt)?;
    codes(rt)?;
    blocks(rt)?;
    sums(rt)?;
    unused(rt)?;
    cuts(rt)?;
    beside(rt)
}
