// How large a record can be.
use slots::bound;
use std::io;

// The line of one bound.
fn bound_of(rt: &impl Print, text: &str, u: u32, block: u32, cut: u32, n: u32) -> io::Result<()> {
    let most = bound(u, block, cut, n);
    println!(rt; "{text}: {} {} {}", most.number, most.place, most.bytes)
}

// Where a second and a third byte begin to count, also with no slot above the cut.
fn gaps(rt: &impl Print) -> io::Result<()> {
    bound_of(rt, "bound 130 128 0 2", 130, 128, 0, 2)?;
    bound_of(rt, "bound 129 128 0 2", 129, 128, 0, 2)?;
    bound_of(rt, "bound 16385 1 0 0", 16385, 1, 0, 0)?;
    bound_of(rt, "bound 16393 128 9 129", 16393, 128, 9, 129)
}

// The lists of the paper's index, and the largest bound there is.
fn lists(rt: &impl Print) -> io::Result<()> {
    bound_of(rt, "bound 32 4 0 15", 32, 4, 0, 15)?;
    bound_of(rt, "bound 32 4 16 3", 32, 4, 16, 3)?;
    bound_of(rt, "bound 1048576 1 0 1048576", 1048576, 1, 0, 1048576)
}

fn refusals(rt: &impl Print) -> io::Result<()> {
    bound_of(rt, "bound 32 4 16 17", 32, 4, 16, 17)?;
    bound_of(rt, "bound 32 4 33 4294967295", 32, 4, 33, 4294967295)?;
    bound_of(
        rt,
        "bound 0 4 4294967295 4294967295",
        0,
        4,
        4294967295,
        4294967295,
    )
}

// All lines of this part, in their order.
pub fn run(rt: &impl Print) -> io::Result<()> {
    gaps(rt)?;
    lists(rt)?;
    refusals(rt)
}
