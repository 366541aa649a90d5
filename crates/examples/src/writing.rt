// Records written from slots and a cut.
use sheet::make::front;
use sheet::show::{bytes, end};
use slots::write;
use std::io;

// The line of a record written to the front of `room`. A refused one has the length 0, and its line no bytes.
fn write_in(
    rt: &impl Print,
    text: &str,
    u: u32,
    block: u32,
    cut: u32,
    slots: &[u32],
    room: &mut [u8],
) -> io::Result<()> {
    let made = write(u, block, cut, slots, room);
    print!(rt; "{text}: {} {} {}", made.number, made.place, made.length)?;
    bytes(rt, front(room, made.length as usize))?;
    end(rt)
}

// The line of a record written to a room of 64 bytes.
fn write_64(
    rt: &impl Print,
    text: &str,
    u: u32,
    block: u32,
    cut: u32,
    slots: &[u32],
) -> io::Result<()> {
    let mut room = [0u8; 64];
    write_in(rt, text, u, block, cut, slots, &mut room)
}

// Where a code gets its second and its third byte.
fn gaps(rt: &impl Print) -> io::Result<()> {
    write_64(rt, "write gap 16384", 40000, 4, 0, &[1, 16385])?;
    write_64(rt, "write gap 16385", 40000, 4, 0, &[1, 16386])?;
    write_64(rt, "write gap 16512", 40000, 4, 0, &[1, 16513])?;
    write_64(rt, "write gap 128", 40000, 4, 0, &[1, 129])?;
    write_64(rt, "write gap 129", 40000, 4, 0, &[1, 130])
}

// The lists of the paper's index: list 1 as it stands there, list 0 as bits.
fn paper(rt: &impl Print) -> io::Result<()> {
    write_64(rt, "write list 1", 32, 4, 16, &[3, 5, 12, 16, 26, 30, 31])?;
    let list_0 = [1u32, 4, 5, 6, 8, 12, 15, 16, 18, 20, 25, 26, 27, 28, 30];
    write_64(rt, "write list 0 as bits", 32, 4, 32, &list_0)
}

fn nothing(rt: &impl Print) -> io::Result<()> {
    let mut room = [0u8; 12];
    write_in(rt, "write nothing", 32, 4, 0, &[], &mut room)?;
    let mut short = [0u8; 11];
    write_in(rt, "write nothing, room 11", 32, 4, 0, &[], &mut short)
}

fn refusals(rt: &impl Print) -> io::Result<()> {
    write_64(rt, "write 5 3", 32, 4, 0, &[5, 3])?;
    write_64(rt, "write 40 3", 32, 4, 0, &[40, 3])?;
    write_64(rt, "write 0", 32, 4, 0, &[0])?;
    write_64(rt, "write 5 5", 32, 4, 0, &[5, 5])?;
    write_64(rt, "write cut 33", 32, 4, 33, &[33])?;
    write_64(rt, "write B 0", 32, 0, 33, &[5, 3])
}

// All lines of this part, in their order.
pub fn run(rt: &impl Print) -> io::Result<()> {
    gaps(rt)?;
    paper(rt)?;
    nothing(rt)?;
    refusals(rt)
}
