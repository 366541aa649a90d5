// Questions to the paper's index.
use sheet::make::PAPER;
use sheet::show::{end, label, values};
use slots::ask;
use std::convert::AsSlice;
use std::io;

// The line of a question whose answer goes to `room`.
// Kept: the way comes as a number, here and below, so that a way can be asked for that there is not.
pub fn ask_in(
    rt: &impl Print,
    text: impl AsSlice<u8> + Drop,
    index: &[u8],
    way: u32,
    names: &[u32],
    room: &mut [u32],
) -> io::Result<()> {
    let told = ask(index, way, names, room);
    label(rt, text)?;
    print!(rt;
        " {} {} {} {} {}",
        told.number, told.place, told.count, told.looks, told.codes
    )?;
    values(rt, room.get(..told.count as usize).unwrap_or(&[]))?;
    end(rt)
}

// The line of a question with room for 64 slots.
pub fn ask_64(
    rt: &impl Print,
    text: impl AsSlice<u8> + Drop,
    index: &[u8],
    way: u32,
    names: &[u32],
) -> io::Result<()> {
    let mut room = [0u32; 64];
    ask_in(rt, text, index, way, names, &mut room)
}

// The line of what each name of a question costs: all places of looks, then all of codes.
// Kept: beside `ask_in`. What they have in common is the call; the rest is what is printed.
fn costs_in(
    rt: &impl Print,
    text: impl AsSlice<u8> + Drop,
    index: &[u8],
    way: u32,
    names: &[u32],
    room: &mut [u32],
) -> io::Result<()> {
    let told = ask(index, way, names, room);
    label(rt, text)?;
    print!(rt; " {} {}", told.number, told.place)?;
    values(rt, &told.looks16)?;
    values(rt, &told.codes16)?;
    end(rt)
}

// The same with room for 64 slots.
pub fn costs_64(
    rt: &impl Print,
    text: impl AsSlice<u8> + Drop,
    index: &[u8],
    way: u32,
    names: &[u32],
) -> io::Result<()> {
    let mut room = [0u32; 64];
    costs_in(rt, text, index, way, names, &mut room)
}

// How many names there are, and what they may be.
fn names(rt: &impl Print) -> io::Result<()> {
    let p = PAPER;
    let both = [0u32, 1, 0, 1, 0, 1, 0, 1, 0, 1, 0, 1, 0, 1, 0, 1, 0];
    ask_64(rt, "16 names", &p, 1, &both[..16])?;
    ask_64(rt, "17 names", &p, 1, &both)?;
    ask_64(rt, "17 names, way 2", &p, 2, &both)?;
    ask_64(rt, "way 2", &p, 2, &both[..2])?;
    ask_64(rt, "no names, way 0", &p, 0, &both[..0])?;
    ask_64(rt, "names 0 2 1 2", &p, 1, &[0, 2, 1, 2])
}

// Room, and lists named twice.
fn paper(rt: &impl Print) -> io::Result<()> {
    let p = PAPER;
    let mut six = [0u32; 6];
    let mut none = [0u32; 0];
    ask_in(rt, "room 6, way 0", &p, 0, &[0, 1], &mut six)?;
    ask_in(rt, "room 0, name 1", &p, 1, &[1], &mut none)?;
    ask_64(rt, "names 0 1, way 0", &p, 0, &[0, 1])?;
    ask_64(rt, "names 1 0 0", &p, 1, &[1, 0, 0])?;
    ask_64(rt, "names 1 1", &p, 1, &[1, 1])
}

// Which list cost what: by position, whatever the order of the lists is.
fn positions(rt: &impl Print) -> io::Result<()> {
    let p = PAPER;
    let both = [0u32, 1, 0, 1, 0, 1, 0, 1, 0, 1, 0, 1, 0, 1, 0, 1, 0];
    costs_64(rt, "costs 0 1", &p, 1, &[0, 1])?;
    costs_64(rt, "costs 1 0", &p, 1, &[1, 0])?;
    costs_64(rt, "costs 1 0 0", &p, 1, &[1, 0, 0])?;
    costs_64(rt, "costs 1 1", &p, 1, &[1, 1])?;
    costs_64(rt, "costs 0 1, way 0", &p, 0, &[0, 1])?;
    costs_64(rt, "costs 16 names", &p, 1, &both[..16])?;
    costs_64(rt, "costs 17 names", &p, 1, &both)
}

// A refusal costs nothing: too little room, and damage to list 0's last code.
fn free(rt: &impl Print) -> io::Result<()> {
    let mut p = PAPER;
    let mut six = [0u32; 6];
    costs_in(rt, "costs room 6", &p, 1, &[0, 1], &mut six)?;
    p[54] = 0x81;
    costs_64(rt, "costs byte 54 is 81", &p, 1, &[0, 1])
}

// All lines of this part, in their order.
pub fn run(rt: &impl Print) -> io::Result<()> {
    names(rt)?;
    paper(rt)?;
    positions(rt)?;
    free(rt)
}
