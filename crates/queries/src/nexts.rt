// The next slot of a list: in the paper's index, sound and damaged, and in one list that is cut in two ways.
use crate::lists::put_sevenths;
use sheet::make;
use sheet::make::{PAPER, close_lists, front};
use slots::next;
use std::io;

fn next_slot(rt: &impl Print, text: &str, index: &[u8], name: u32, slot: u32) -> io::Result<()> {
    let told = next(index, name, slot);
    println!(rt; "{text}: {} {} {}", told.number, told.place, told.slot)
}

// List 0 has a tail alone: the slot itself, where a block runs out, inside a block, and where the last block runs out.
fn tail(rt: &impl Print) -> io::Result<()> {
    let p = PAPER;
    next_slot(rt, "next from 5 in list 0", &p, 0, 5)?;
    next_slot(rt, "next from 7 in list 0", &p, 0, 7)?;
    next_slot(rt, "next from 9 in list 0", &p, 0, 9)?;
    next_slot(rt, "next from 31 in list 0", &p, 0, 31)
}

// List 1 has bits up to 16: by the bits, before the first block, and behind the last slot.
fn bits(rt: &impl Print) -> io::Result<()> {
    let p = PAPER;
    next_slot(rt, "next from 6 in list 1", &p, 1, 6)?;
    next_slot(rt, "next from 17 in list 1", &p, 1, 17)?;
    next_slot(rt, "next from 32 in list 1", &p, 1, 32)
}

fn refusals(rt: &impl Print) -> io::Result<()> {
    let p = PAPER;
    next_slot(rt, "next from 0 in list 0", &p, 0, 0)?;
    next_slot(rt, "next from 33 in list 0", &p, 0, 33)?;
    next_slot(rt, "next from 33 in list 2", &p, 2, 33)
}

// Damage to list 0's last code; and list 1 without its bits 9 to 16, so that they run out.
fn changed(rt: &impl Print) -> io::Result<()> {
    let mut p = PAPER;
    p[54] = 0x81;
    next_slot(rt, "byte 54 is 81, next from 5", &p, 0, 5)?;
    p = PAPER;
    p[68] = 0;
    next_slot(rt, "byte 68 is 0, next from 6", &p, 1, 6)
}

// Bits that end before the slot asked from, and a list of bits alone.
fn sevenths(rt: &impl Print) -> io::Result<()> {
    let mut room = make::room();
    let second = put_sevenths(&mut room, 0, 127);
    let total = put_sevenths(&mut room, second, 196);
    let length = close_lists(&mut room, 196, 128, total, &[0, second]);
    let index = front(&room, length);
    next_slot(
        rt,
        "every seventh slot, cut 127, next from 127",
        index,
        0,
        127,
    )?;
    next_slot(
        rt,
        "every seventh slot, cut 196, next from 190",
        index,
        1,
        190,
    )
}

// All lines of this part, in their order.
pub fn run(rt: &impl Print) -> io::Result<()> {
    tail(rt)?;
    bits(rt)?;
    refusals(rt)?;
    changed(rt)?;
    sevenths(rt)
}
