// Looking at whole indexes: their sizes, the trailer's numbers, the directory.
use sheet::make::{PAPER, put_word, put_words};
use sheet::show::verdict;
use slots::look;
use std::io;

fn whole(rt: &impl Print) -> io::Result<()> {
    let p = PAPER;
    verdict(rt, "look P", look(&p))?;
    verdict(rt, "look nothing", look(&p[..0]))?;
    verdict(rt, "look 23 bytes", look(&p[88..]))
}

// An index whose one list has no slot: twelve zero bytes, its start, and the trailer.
fn empty_list(rt: &impl Print, text: &str, u: u32, block: u32) -> io::Result<()> {
    let mut index = [0u8; 40];
    put_words(&mut index, 0, &[0, 0, 0, 0, 1, u, block, 1, 12, 0x544F4C53]);
    verdict(rt, text, look(&index))
}

fn sizes(rt: &impl Print) -> io::Result<()> {
    empty_list(rt, "u 1048576", 1048576, 4)?;
    empty_list(rt, "u 1048577", 1048577, 4)?;
    empty_list(rt, "u 0", 0, 4)?;
    empty_list(rt, "B 128", 32, 128)?;
    empty_list(rt, "B 129", 32, 129)?;
    empty_list(rt, "B 0", 32, 0)
}

// The paper's index with another number at one place.
fn changed(rt: &impl Print, text: &str, at: usize, word: u32) -> io::Result<()> {
    let mut p = PAPER;
    put_word(&mut p, at, word);
    verdict(rt, text, look(&p))
}

// The trailer fills the bytes from 87 on.
fn trailer(rt: &impl Print) -> io::Result<()> {
    changed(rt, "k 0", 99, 0)?;
    changed(rt, "edition 2", 87, 2)?;
    changed(rt, "tag slot", 107, 0x744F4C53)?;
    changed(rt, "D FFFFFFFF", 103, 0xFFFFFFFF)
}

// The directory lies at 79: the first start, and at 83 the second.
fn directory(rt: &impl Print) -> io::Result<()> {
    changed(rt, "first start 1", 79, 1)?;
    changed(rt, "falling starts", 83, 0)?;
    changed(rt, "short record", 83, 8)
}

// All lines of this part, in their order.
pub fn run(rt: &impl Print) -> io::Result<()> {
    whole(rt)?;
    sizes(rt)?;
    trailer(rt)?;
    directory(rt)
}
