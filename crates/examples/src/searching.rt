// The doubling search alone: the position that it gives, and its looks.
ghost use Rattle.std.specs.Prelude.{◌≤◌};

use search::search;
use sheet::make::{PAPER, put_words};
use std::io;

// The line of a search among all of the entries, of eight bytes each.
fn search_for(
    rt: &impl Print,
    text: &str,
    entries: &[u8],
    finger: usize,
    x: u32,
) -> io::Result<()> {
    let m = entries.len() / 8;
    if 1048576 < m || m < finger {
        return Ok(());
    }
    let found = search(entries, m, finger, x);
    println!(rt; "{text}: {} {}", found.j, found.looks)
}

// Entries with s(i) = i, as many as there is room for. A search does not read their offsets.
fn count_up(entries: &mut [u8]) {
    let mut at = 0;
    for i in 1..=40 {
        at = put_words(entries, at, &[i, 0]);
    }
}

// A search among 1, 2, 3 and on, whose entries take N bytes.
fn search_up<const N: usize>(rt: &impl Print, text: &str, finger: usize, x: u32) -> io::Result<()>
    requires { N ≤ 320 }
{
    let mut entries = [0u8; N];
    count_up(&mut entries);
    search_for(rt, text, &entries, finger, x)
}

fn six(rt: &impl Print) -> io::Result<()> {
    search_up::<48>(rt, "six entries, x 4", 0, 4)?;
    search_up::<48>(rt, "six entries, x 5", 0, 5)?;
    search_up::<48>(rt, "six entries, x 6", 0, 6)
}

fn forty(rt: &impl Print) -> io::Result<()> {
    search_up::<320>(rt, "forty entries, finger 0, x 13", 0, 13)?;
    search_up::<320>(rt, "forty entries, finger 5, x 30", 5, 30)?;
    search_up::<320>(rt, "forty entries, finger 0, x 40", 0, 40)?;
    search_up::<320>(rt, "forty entries, finger 5, x 5", 5, 5)?;
    search_up::<320>(rt, "forty entries, finger 40, x 40", 40, 40)
}

// List 0 has no bits, so that its four entries follow its three numbers.
fn paper(rt: &impl Print) -> io::Result<()> {
    let p = PAPER;
    let entries = &p[12..44];
    search_for(rt, "list 0, x 7", entries, 0, 7)?;
    search_for(rt, "list 0, x 8", entries, 0, 8)?;
    search_for(rt, "list 0, x 18", entries, 0, 18)
}

// All lines of this part, in their order.
pub fn run(rt: &impl Print) -> io::Result<()> {
    six(rt)?;
    forty(rt)?;
    paper(rt)
}
