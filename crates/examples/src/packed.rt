// Questions to indexes that the library writes and closes itself, all with u 32.
use queries::asking::{ask_64, costs_64};
use queries::lists::{count_list, part_of, test_slot};
use sheet::make;
use sheet::make::{close_lists, fill, front, put_bits, put_list, put_word};
use sheet::show::verdict;
use slots::look;
use std::io;

// A slot that the paper's list 0 lacks, sought by skips: its one search gives looks and codes.
fn sought(rt: &impl Print) -> io::Result<()> {
    let mut room = make::room();
    let list_0 = [1u32, 4, 5, 6, 8, 12, 15, 16, 18, 20, 25, 26, 27, 28, 30];
    let first = put_list(&mut room, 0, 32, 4, 0, &list_0);
    let total = put_list(&mut room, first, 32, 4, 0, &[7]);
    let length = close_lists(&mut room, 32, 4, total, &[0, first]);
    ask_64(rt, "7 sought in list 0", front(&room, length), 1, &[0, 1])
}

// Two lists of equal count: the candidates are those of the name that comes first.
fn ties(rt: &impl Print) -> io::Result<()> {
    let mut room = make::room();
    let first = put_list(&mut room, 0, 32, 1, 0, &[7, 8, 9, 10]);
    let total = put_list(&mut room, first, 32, 1, 0, &[1, 2, 3, 4]);
    let length = close_lists(&mut room, 32, 1, total, &[0, first]);
    let index = front(&room, length);
    ask_64(rt, "ties 0 1", index, 1, &[0, 1])?;
    ask_64(rt, "ties 1 0", index, 1, &[1, 0])?;
    costs_64(rt, "costs ties 0 1", index, 1, &[0, 1])?;
    costs_64(rt, "costs ties 1 0", index, 1, &[1, 0])
}

// Three lists whose counts do not rise in the order named: the smallest is tried in the second smallest first.
fn rising(rt: &impl Print) -> io::Result<()> {
    let mut room = make::room();
    let mut to_26 = [0u32; 26];
    fill(&mut to_26, 1);
    let mut even = [0u32; 12];
    fill(&mut even, 2);
    let first = put_list(&mut room, 0, 32, 2, 0, &[4, 9, 16, 25]);
    let second = put_list(&mut room, first, 32, 2, 0, &to_26);
    let total = put_list(&mut room, second, 32, 2, 0, &even);
    let length = close_lists(&mut room, 32, 2, total, &[0, first, second]);
    let index = front(&room, length);
    ask_64(rt, "rising counts", index, 1, &[0, 1, 2])?;
    ask_64(rt, "rising counts, names 2 1 0", index, 1, &[2, 1, 0])?;
    costs_64(rt, "costs rising counts", index, 1, &[0, 1, 2])?;
    costs_64(rt, "costs rising counts, names 2 1 0", index, 1, &[2, 1, 0])
}

// What every operation on an index with rubbish in list 1 gives.
fn refused(rt: &impl Print, index: &[u8]) -> io::Result<()> {
    verdict(rt, "rubbish behind the cut, look", look(index))?;
    ask_64(rt, "rubbish behind the cut", index, 1, &[0, 1])?;
    count_list(rt, "rubbish behind the cut, count list 1", index, 1)?;
    test_slot(rt, "rubbish behind the cut, test 3 in list 0", index, 0, 3)?;
    part_of(rt, "rubbish behind the cut, part of list 1", index, 1)
}

// List 1's bits behind its cut of 11, in the second of its two bit bytes, are all set. Then list 0's first slot becomes 0, a fault that comes first.
fn rubbish(rt: &impl Print) -> io::Result<()> {
    let mut room = make::room();
    let first = put_list(&mut room, 0, 32, 2, 0, &[3, 11, 12, 13, 22]);
    let total = put_list(&mut room, first, 32, 2, 11, &[2, 3, 11, 13, 14, 20, 22, 31]);
    let length = close_lists(&mut room, 32, 2, total, &[0, first]);
    put_bits(&mut room, first, 13, 0x1F);
    refused(rt, front(&room, length))?;
    put_word(&mut room, 12, 0);
    verdict(
        rt,
        "rubbish in list 1, a fault in list 0",
        look(front(&room, length)),
    )
}

// All lines of this part, in their order.
pub fn run(rt: &impl Print) -> io::Result<()> {
    sought(rt)?;
    ties(rt)?;
    rising(rt)?;
    rubbish(rt)
}
