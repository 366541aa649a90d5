// One list of the paper's index: a slot tested, its slots counted, where its record lies. Then one list cut in many ways, and counted.
use sheet::make;
use sheet::make::{PAPER, close_lists, fill, front, put_list};
use sheet::show::label;
use slots::{count, part, test};
use std::convert::AsSlice;
use std::io;

pub fn test_slot(
    rt: &impl Print,
    text: impl AsSlice<u8> + Drop,
    index: &[u8],
    name: u32,
    slot: u32,
) -> io::Result<()> {
    let told = test(index, name, slot);
    label(rt, text)?;
    println!(rt; " {} {} {}", told.number, told.place, u32::from(told.yes))
}

fn tests(rt: &impl Print) -> io::Result<()> {
    let p = PAPER;
    test_slot(rt, "slot 32 in list 0", &p, 0, 32)?;
    test_slot(rt, "slot 0 in list 0", &p, 0, 0)?;
    test_slot(rt, "slot 33 in list 0", &p, 0, 33)?;
    test_slot(rt, "slot 30 in list 1", &p, 1, 30)?;
    test_slot(rt, "slot 1 in list 2", &p, 2, 1)
}

pub fn count_list(
    rt: &impl Print,
    text: impl AsSlice<u8> + Drop,
    index: &[u8],
    name: u32,
) -> io::Result<()> {
    let told = count(index, name);
    label(rt, text)?;
    println!(rt; " {} {} {}", told.number, told.place, told.count)
}

fn counts(rt: &impl Print) -> io::Result<()> {
    let p = PAPER;
    count_list(rt, "count list 0", &p, 0)?;
    count_list(rt, "count list 1", &p, 1)?;
    count_list(rt, "count list 2", &p, 2)
}

pub fn part_of(
    rt: &impl Print,
    text: impl AsSlice<u8> + Drop,
    index: &[u8],
    name: u32,
) -> io::Result<()> {
    let told = part(index, name);
    label(rt, text)?;
    println!(rt;
        " {} {} {} {}",
        told.number, told.place, told.start, told.length
    )
}

fn parts(rt: &impl Print) -> io::Result<()> {
    let p = PAPER;
    part_of(rt, "part list 0", &p, 0)?;
    part_of(rt, "part list 1", &p, 1)?;
    part_of(rt, "part list 2", &p, 2)
}

// Damage to list 0's last code, behind the slot that is wanted and before the list that is counted.
fn damaged(rt: &impl Print) -> io::Result<()> {
    let mut p = PAPER;
    p[54] = 0x81;
    test_slot(rt, "byte 54 is 81, slot 5", &p, 0, 5)?;
    count_list(rt, "byte 54 is 81, count list 1", &p, 1)
}

// Writes the list of every seventh slot up to 196, with the cut that is given, behind the first `at` bytes, and tells where it ends.
pub fn put_sevenths(room: &mut [u8], at: u32, cut: u32) -> u32 {
    let mut sevenths = [0u32; 28];
    fill(&mut sevenths, 7);
    put_list(room, at, 196, 128, cut, &sevenths)
}

// Bits are counted by eights of bytes, then by bytes, then by the bits of one. These cuts have one of the three, two, or all. The count is the same.
fn sevenths(rt: &impl Print) -> io::Result<()> {
    let mut room = make::room();
    let to_64 = put_sevenths(&mut room, 0, 63);
    let to_71 = put_sevenths(&mut room, to_64, 64);
    let to_72 = put_sevenths(&mut room, to_71, 71);
    let to_127 = put_sevenths(&mut room, to_72, 72);
    let to_128 = put_sevenths(&mut room, to_127, 127);
    let to_196 = put_sevenths(&mut room, to_128, 128);
    let total = put_sevenths(&mut room, to_196, 196);
    let starts = [0, to_64, to_71, to_72, to_127, to_128, to_196];
    let length = close_lists(&mut room, 196, 128, total, &starts);
    let index = front(&room, length);
    count_list(rt, "every seventh slot, cut 63", index, 0)?;
    count_list(rt, "every seventh slot, cut 64", index, 1)?;
    count_list(rt, "every seventh slot, cut 71", index, 2)?;
    count_list(rt, "every seventh slot, cut 72", index, 3)?;
    count_list(rt, "every seventh slot, cut 127", index, 4)?;
    count_list(rt, "every seventh slot, cut 128", index, 5)?;
    count_list(rt, "every seventh slot, cut 196", index, 6)
}

// All lines of this part, in their order.
pub fn run(rt: &impl Print) -> io::Result<()> {
    tests(rt)?;
    counts(rt)?;
    parts(rt)?;
    damaged(rt)?;
    sevenths(rt)
}
