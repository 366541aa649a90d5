// A line of the output: the label and a colon, then each value behind one space. What cannot be written is the error of the call.
use paper::Verdict;
use std::convert::AsSlice;
use std::fmt::Display;
use std::io;

// Begins a line with its label: a text, or any bytes.
pub fn label(rt: &impl Print, text: impl AsSlice<u8> + Drop) -> io::Result<()> {
    rt.write_all(text.as_slice())?;
    print!(rt; ":")
}

// A whole line of what looking found.
pub fn verdict(rt: &impl Print, text: impl AsSlice<u8> + Drop, seen: Verdict) -> io::Result<()> {
    label(rt, text)?;
    println!(rt; " {} {}", seen.number, seen.place)
}

// Further values of a line.
pub fn values<T: Display>(rt: &impl Print, all: &[T]) -> io::Result<()> {
    for n in all {
        print!(rt; " {n}")?;
    }
    Ok(())
}

// Bytes as one word, two digits each, and no word where there are none.
pub fn bytes(rt: &impl Print, all: &[u8]) -> io::Result<()> {
    if !all.is_empty() {
        print!(rt; " ")?;
    }
    for b in all {
        print!(rt; "{b:02x}")?;
    }
    Ok(())
}

// Ends a line.
pub fn end(rt: &impl Print) -> io::Result<()> {
    println!(rt; "")
}
