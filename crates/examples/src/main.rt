// Runs the examples that the format is held to and prints a line for each: its label, a colon, and the values of the answer. The second
// implementation has a program of its own that prints the same lines; the two outputs are compared.
#![tactic(auto)]

mod bounds;
mod closed;
mod packed;
mod searching;
mod writing;

use judged::{looking, records};
use queries::{asking, lists, nexts};
use std::io;

fn main(rt: HostRuntime) -> io::Result<()> {
    looking::run(&rt)?;
    asking::run(&rt)?;
    lists::run(&rt)?;
    nexts::run(&rt)?;
    searching::run(&rt)?;
    packed::run(&rt)?;
    records::run(&rt)?;
    writing::run(&rt)?;
    closed::run(&rt)?;
    bounds::run(&rt)
}
