// Indexes closed: directory and trailer behind records.
ghost use Rattle.std.specs.Prelude.{◌≤◌};

use sheet::make::{PAPER, front, put_bits, put_bytes, put_list};
use sheet::show::verdict;
use slots::{close, look};
use std::io;

// The paper's two records, put to the front of a buffer.
fn put_records(room: &mut [u8]) {
    let p = PAPER;
    put_bytes(room, 0, &p[..79]);
}

// The line of an index closed in `room`, with u 32.
fn close_in(
    rt: &impl Print,
    text: &str,
    room: &mut [u8],
    block: u32,
    total: u32,
    starts: &[u32],
) -> io::Result<()> {
    let made = close(room, 32, block, total, starts);
    println!(rt; "{text}: {} {} {}", made.number, made.place, made.length)
}

// What was closed is a sound index, and the paper's, byte for byte.
fn closed_as(rt: &impl Print, room: &[u8], index: &[u8]) -> io::Result<()> {
    let made = front(room, index.len());
    verdict(rt, "close P looks", look(made))?;
    println!(rt; "close P as P: {}", u32::from(made == index))
}

// The paper's records, 64 bytes A5 behind them, closed to the paper's index.
fn paper(rt: &impl Print) -> io::Result<()> {
    let p = PAPER;
    let mut room = [0xA5u8; 143];
    put_records(&mut room);
    close_in(rt, "close P", &mut room, 4, 79, &[0, 55])?;
    closed_as(rt, &room, &p)
}

// The line of a closing in such a buffer of N bytes, each time a fresh one: 143, or 110, which ends a byte before the index would.
fn close_fresh<const N: usize>(
    rt: &impl Print,
    text: &str,
    block: u32,
    total: u32,
    starts: &[u32],
) -> io::Result<()>
    requires { N ≤ 143 }
{
    let mut room = [0xA5u8; N];
    put_records(&mut room);
    close_in(rt, text, &mut room, block, total, starts)
}

fn refusals(rt: &impl Print) -> io::Result<()> {
    close_fresh::<143>(rt, "close no starts", 4, 79, &[])?;
    close_fresh::<110>(rt, "close room 110", 4, 79, &[0, 55])?;
    close_fresh::<143>(rt, "close starts 0 54", 4, 79, &[0, 54])?;
    close_fresh::<143>(rt, "close starts 1 55", 4, 79, &[1, 55])?;
    close_fresh::<143>(rt, "close starts 0 80", 4, 79, &[0, 80])?;
    close_fresh::<143>(rt, "close total 81", 4, 81, &[0, 55])?;
    close_fresh::<143>(rt, "close total FFFFFFFF", 4, 0xFFFFFFFF, &[0, 55])?;
    close_fresh::<143>(rt, "close B 129", 129, 79, &[])
}

// Records whose second has its bits behind the cut set.
fn rubbish(rt: &impl Print) -> io::Result<()> {
    let mut room = [0xA5u8; 143];
    let first = put_list(&mut room, 0, 32, 2, 0, &[3, 11, 12, 13, 22]);
    let total = put_list(&mut room, first, 32, 2, 11, &[2, 3, 11, 13, 14, 20, 22, 31]);
    put_bits(&mut room, first, 13, 0x1F);
    close_in(rt, "close rubbish", &mut room, 2, total, &[0, first])
}

// All lines of this part, in their order.
pub fn run(rt: &impl Print) -> io::Result<()> {
    paper(rt)?;
    refusals(rt)?;
    rubbish(rt)
}
