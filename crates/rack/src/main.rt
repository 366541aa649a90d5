// The small program: it puts the question that stands on standard input to the index in the file `rack.idx` of its working folder, and prints
// the answer. Files and pipes lie outside of every promise, so all functions here are proved safe and no more; what a text asks and what an index
// answers is promised by `line` and `slots`.
#![tactic(auto)]

ghost use Rattle.std.specs.Prelude.{◌≡◌, ◌≤◌, length};

use line::read_line;
use paper::Answer;
use slots::ask;
use std::io::Read;
use std::rt::Files;
use std::{fs, io};

// An array of n places that are all the same.
fn room<T: Copy, const N: usize>(empty: T) -> [T; N]
    ensures { N ≡ length result }
{
    [empty; N]
}

// Reads to the end, piece by piece, and tells how many bytes came. It stops where the room is full. A read that fails is told as a full room,
// since rooms have one byte more than is allowed: both come to the same answer.
// Kept: `read_to_end` wants a vector, and the project uses no heap; and a failed read is a full room, since the program answers both alike.
fn read_all(from: &mut impl Read, room: &mut [u8]) -> usize
    ensures { result ≤ length room.new }
{
    let mut done: usize = 0;
    while done < room.len() {
        let Ok(more) = from.read(&mut room[done..]) else {
            return room.len();
        };
        if more == 0 {
            return done;
        }
        done += more;
    }
    done
}

// Reads the file. One that cannot be opened is told as a full room, too.
fn read_file(rt: &impl Files, room: &mut [u8]) -> usize
    ensures { result ≤ length room.new }
{
    let Ok(mut file) = fs::open(rt, "rack.idx") else {
        return room.len();
    };
    read_all(&mut file, room)
}

// Prints the four numbers of an answer on one line.
fn print_answer(rt: &impl Print, answer: &Answer) -> io::Result<()> {
    println!(rt;
        "{} {} {} {}",
        answer.number, answer.place, answer.looks, answer.codes
    )
}

// Prints slots, each on a line.
fn print_slots(rt: &impl Print, slots: &[u32]) -> io::Result<()> {
    for slot in slots {
        println!(rt; "{slot}")?;
    }
    Ok(())
}

// Asks the index, and prints the answer. A refusal counts no slots, and so prints its first line only.
// Kept: the way as the number that the text has, for `ask` takes any.
fn reply(rt: &impl Print, index: &[u8], way: u32, names: &[u32]) -> io::Result<()> {
    let mut slots = room::<u32, 16384>(0);
    let answer = ask(index, way, names, &mut slots);
    print_answer(rt, &answer)?;
    let count = answer.count as usize;
    print_slots(rt, &slots[..count])
}

// Takes the question from standard input: the way first, then the names. The room has a byte more than the longest text. A text that fills it
// is over 256 bytes, and `read_line` finds no numbers in it.
fn answer_input(rt: &(impl Print + Input), index: &[u8]) -> io::Result<()> {
    let mut room = room::<u8, 257>(0);
    let many = read_all(&mut rt.reader(), &mut room);
    let numbers = read_line(&room[..many]);
    let Some((way, names)) = numbers.all().split_first() else {
        return println!(rt; "usage");
    };
    reply(rt, index, *way, names)
}

// The file is judged before anything of standard input is read. Its room has a byte more than the longest file.
fn main(rt: HostRuntime) -> io::Result<()> {
    let mut room = room::<u8, 65537>(0);
    let many = read_file(&rt, &mut room);
    if 65536 < many {
        return println!(rt; "file");
    }
    answer_input(&rt, &room[..many])
}
