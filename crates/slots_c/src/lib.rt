// The library for callers in other languages: each public operation once more, as a function of the C calling convention.
// A slice comes as two arguments, pointer and length, and a number as itself. The fields of an answer go to a slice of u64 that the
// caller lends, since a u64 holds each of them: a shorter slice takes those that fit, and what stood behind them stays.
#![tactic(auto)]

ghost use Rattle.std.specs.Prelude.{◌≡◌, ◌≤◌};
ghost use Rattle.std.proofs.lemmas.List.Edits.{sets};
ghost use Rattle.slots_c.specs.Exported.{HandsLook, HandsAsk, HandsTest, HandsNext, HandsCount, HandsLend, HandsBound, HandsWrite, HandsClose};

use slots::{ask, bound, close, count, look, next, part, test, write};

// Puts fields, one after the other, to the places from `from` on, as far as the slice has places for them.
fn put(out: &mut [u64], from: usize, fields: &[u64])
    requires { from ≤ 21 }
    ensures { out.new ≡ sets out.old from fields.now }
{
    for (i, field) in fields.iter().enumerate() {
        let at = from + i;
        if at < out.len() {
            out[at] = *field;
        }
    }
}

// out: number place
#[unsafe(no_mangle)]
pub extern "C" fn slots_look(index: &[u8], out: &mut [u64]) -> u32
    ensures { HandsLook index.now out.old result out.new }
{
    let seen = look(index);
    put(out, 0, &[u64::from(seen.number), u64::from(seen.place)]);
    seen.number
}

// out: number place count looks codes, then the looks at each of sixteen positions, then the codes at each
#[unsafe(no_mangle)]
pub extern "C" fn slots_ask(
    index: &[u8],
    way: u32,
    names: &[u32],
    slots: &mut [u32],
    out: &mut [u64],
) -> u32
    ensures { HandsAsk index.now way names.now slots.old out.old result slots.new out.new }
{
    let answer = ask(index, way, names, slots);
    put(
        out,
        0,
        &[
            u64::from(answer.number),
            u64::from(answer.place),
            u64::from(answer.count),
        ],
    );
    put(out, 3, &[answer.looks, answer.codes]);
    put(out, 5, &answer.looks16);
    put(out, 21, &answer.codes16);
    answer.number
}

// out: number place yes
#[unsafe(no_mangle)]
pub extern "C" fn slots_test(index: &[u8], name: u32, slot: u32, out: &mut [u64]) -> u32
    ensures { HandsTest index.now name slot out.old result out.new }
{
    let tested = test(index, name, slot);
    put(
        out,
        0,
        &[
            u64::from(tested.number),
            u64::from(tested.place),
            u64::from(tested.yes),
        ],
    );
    tested.number
}

// out: number place slot
#[unsafe(no_mangle)]
pub extern "C" fn slots_next(index: &[u8], name: u32, slot: u32, out: &mut [u64]) -> u32
    ensures { HandsNext index.now name slot out.old result out.new }
{
    let told = next(index, name, slot);
    put(
        out,
        0,
        &[
            u64::from(told.number),
            u64::from(told.place),
            u64::from(told.slot),
        ],
    );
    told.number
}

// out: number place count
#[unsafe(no_mangle)]
pub extern "C" fn slots_count(index: &[u8], name: u32, out: &mut [u64]) -> u32
    ensures { HandsCount index.now name out.old result out.new }
{
    let counted = count(index, name);
    put(
        out,
        0,
        &[
            u64::from(counted.number),
            u64::from(counted.place),
            u64::from(counted.count),
        ],
    );
    counted.number
}

// out: start length, both 0 on refusal. The result is the length: where it is 0, slots_count tells the number.
#[unsafe(no_mangle)]
pub extern "C" fn slots_lend(index: &[u8], name: u32, out: &mut [u64]) -> u32
    ensures { HandsLend index.now name out.old result out.new }
{
    let lies = part(index, name);
    put(out, 0, &[u64::from(lies.start), u64::from(lies.length)]);
    lies.length
}

// out: number place bytes
#[unsafe(no_mangle)]
pub extern "C" fn slots_bound(u: u32, block: u32, cut: u32, n: u32, out: &mut [u64]) -> u32
    ensures { HandsBound u block cut n out.old result out.new }
{
    let most = bound(u, block, cut, n);
    put(
        out,
        0,
        &[
            u64::from(most.number),
            u64::from(most.place),
            u64::from(most.bytes),
        ],
    );
    most.number
}

// out: number place length
#[unsafe(no_mangle)]
pub extern "C" fn slots_write(
    u: u32,
    block: u32,
    cut: u32,
    slots: &[u32],
    room: &mut [u8],
    out: &mut [u64],
) -> u32
    ensures { HandsWrite u block cut slots.now room.old out.old result room.new out.new }
{
    let written = write(u, block, cut, slots, room);
    put(
        out,
        0,
        &[
            u64::from(written.number),
            u64::from(written.place),
            u64::from(written.length),
        ],
    );
    written.number
}

// out: number place length
#[unsafe(no_mangle)]
pub extern "C" fn slots_close(
    room: &mut [u8],
    u: u32,
    block: u32,
    total: u32,
    starts: &[u32],
    out: &mut [u64],
) -> u32
    ensures { HandsClose room.old u block total starts.now out.old result room.new out.new }
{
    let closed = close(room, u, block, total, starts);
    put(
        out,
        0,
        &[
            u64::from(closed.number),
            u64::from(closed.place),
            u64::from(closed.length),
        ],
    );
    closed.number
}
