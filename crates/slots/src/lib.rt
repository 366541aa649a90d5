// The library: every operation answers for any bytes and any numbers, and its promise says all of its answer.
// Kept: the answers of the public functions have a number and a place, 0 where nothing is refused, and `next` tells 0 for no slot. Their promises speak
// of these structs (`MeetsLook`, `MeetsNext`, `MeetsAsk` and the others), and the C interface hands them on. Inside, a refusal goes by name. Each operation
// makes its own answer of a refusal: an impl of `From` for each of seven structs would stand far from it, and be used once.
#![tactic(auto)]

ghost use Rattle.std.specs.Prelude.{◌≡◌, IfOk};
ghost use Rattle.paper.specs.Look.{look, MeetsLook};
ghost use Rattle.paper.specs.Ask.{MeetsAsk};
ghost use Rattle.paper.specs.Close.{MeetsClose};
ghost use Rattle.paper.specs.Fault.{number_of, told};
ghost use Rattle.paper.specs.OneList.{name_fault, test_fault, MeetsTest, MeetsNext, MeetsCount, MeetsLend, MeetsPart};
ghost use Rattle.paper.specs.Write.{MeetsWrite};
ghost use Rattle.paper.specs.Reserve.{MeetsBound};
ghost use Rattle.question.specs.Ways as ways;
ghost use Rattle.slots.specs.Unmade.{unmade};
ghost use Rattle.slots.specs.Unroomed.{unroomed, refusal};

use closing::{check_close, closed_size, put_frame};
use frame::{check_frame, check_lists, start_of};
use names::Index;
use pack::{check_write, lay_out, put_record};
use paper::refusal::{Fault, Refusal};
use paper::{Answer, Bound, Counted, Next, Part, Tested, Verdict, Written};
use question::{Way, answer_by_skips, answer_plainly, check_names, rank};
use record::count_record;
use reserve::{check_bound, most_bytes};
use search::{holds, next_from};

// What looking finds: 1 to 5, then the lists one after the other, and the first fault.
#[tactic(auto, using(crate::proofs::Answers::looking))]
fn check(index: &[u8]) -> Result<(), Refusal>
    ensures { told result ≡ look index.now }
{
    check_frame(index)?;
    check_lists(index)
}

// Looks at a whole index. The first fault found is the answer.
pub fn look(index: &[u8]) -> Verdict
    ensures { MeetsLook index.now result }
{
    check(index).into()
}

// The index, then 11 of one name.
#[tactic(auto, using(crate::proofs::Answers::names))]
fn check_name(index: &[u8], name: u32) -> Result<(), Refusal>
    ensures { told result ≡ name_fault index.now name }
{
    check(index)?;
    if (Index { bytes: index }).k() <= name {
        return Err(Fault::Name.into());
    }
    Ok(())
}

// Where the record of one list lies in the index.
#[tactic(auto, using(crate::proofs::Answers::parts))]
pub fn part(index: &[u8], name: u32) -> Part
    ensures { MeetsPart index.now name result }
{
    if let Err(refusal) = check_name(index, name) {
        return Part {
            number: refusal.fault.number(),
            place: refusal.place,
            start: 0,
            length: 0,
        };
    }
    let from = start_of(index, name as usize);
    let to = start_of(index, name as usize + 1);
    Part {
        number: 0,
        place: 0,
        start: from as u32,
        length: (to - from) as u32,
    }
}

// Lends the record of one list, a part of the caller's own slice. It is empty exactly where `count` refuses: a refused part lies from 0 to 0.
#[tactic(auto, using(crate::proofs::Answers::lending))]
pub fn lend(index: &[u8], name: u32) -> &[u8]
    ensures { MeetsLend index.now name result.now }
{
    if check_name(index, name).is_err() {
        return &index[..0];
    }
    let accepted = Index { bytes: index };
    accepted.record(name)
}

// Counts the slots that one list holds.
#[tactic(auto, using(crate::proofs::Answers::counting))]
pub fn count(index: &[u8], name: u32) -> Counted
    ensures { MeetsCount index.now name result }
{
    match check_name(index, name) {
        Ok(()) => Counted {
            number: 0,
            place: 0,
            count: count_record(Index { bytes: index }.record(name)),
        },
        Err(refusal) => Counted {
            number: refusal.fault.number(),
            place: refusal.place,
            count: 0,
        },
    }
}

// The index, 11 of one name, and then 16 of a slot.
#[tactic(auto, using(crate::proofs::Answers::slot_tests))]
fn check_slot(index: &[u8], name: u32, slot: u32) -> Result<(), Refusal>
    ensures { told result ≡ test_fault index.now name slot }
{
    check_name(index, name)?;
    if slot < 1 || (Index { bytes: index }).u() < slot {
        return Err(Fault::Asked.into());
    }
    Ok(())
}

// Tests whether one list holds a slot.
#[tactic(auto, using(crate::proofs::Answers::tests))]
pub fn test(index: &[u8], name: u32, slot: u32) -> Tested
    ensures { MeetsTest index.now name slot result }
{
    match check_slot(index, name, slot) {
        Ok(()) => Tested {
            number: 0,
            place: 0,
            yes: holds(&Index { bytes: index }.list(name), slot),
        },
        Err(refusal) => Tested {
            number: refusal.fault.number(),
            place: refusal.place,
            yes: false,
        },
    }
}

// Tells the next slot of one list: the least that is not below a slot, or 0 where the list has none.
#[tactic(auto, using(crate::proofs::Answers::nexts))]
pub fn next(index: &[u8], name: u32, slot: u32) -> Next
    ensures { MeetsNext index.now name slot result }
{
    match check_slot(index, name, slot) {
        Ok(()) => Next {
            number: 0,
            place: 0,
            slot: next_from(&Index { bytes: index }.list(name), slot).unwrap_or(0),
        },
        Err(refusal) => Next {
            number: refusal.fault.number(),
            place: refusal.place,
            slot: 0,
        },
    }
}

// All refusals of a question but 12: the index, 14, 10, 11. The way is told.
#[tactic(auto, using(crate::proofs::Asking::questions))]
fn check_question(index: &[u8], way: u32, names: &[u32]) -> Result<Way, Refusal>
    ensures told { told result ≡ unroomed index.now way names.now }
    ensures known { IfOk result (λ known. ways.number_of known ≡ way) }
{
    check(index)?;
    check_names(Index { bytes: index }, way, names)
}

// The answer to a question that is refused: nothing is counted.
fn refused(found: Refusal) -> Answer
    ensures { result ≡ refusal (number_of found.fault) found.place }
{
    Answer {
        number: found.fault.number(),
        place: found.place,
        count: 0,
        looks: 0,
        codes: 0,
        looks16: [0; 16],
        codes16: [0; 16],
    }
}

// Answers a question: what all lists named hold, at the front of `slots`, and 0 at every place behind. Nothing is written
// before every refusal is ruled out.
// Kept: the way comes as a number, and so it goes to `check_question`, which makes a `Way` of it. C hands it on, and `MeetsAsk` answers for any number.
#[tactic(auto, using(crate::proofs::Asking::askings))]
pub fn ask(index: &[u8], way: u32, names: &[u32], slots: &mut [u32]) -> Answer
    ensures { MeetsAsk index.now way names.now slots.old result slots.new }
{
    let way = match check_question(index, way, names) {
        Ok(way) => way,
        Err(refusal) => return refused(refusal),
    };
    let question = rank(Index { bytes: index }, names);
    let need = question.room;
    if slots.len() < need as usize {
        return refused(Refusal {
            fault: Fault::Room,
            place: need,
        });
    }
    match way {
        Way::BySkips => answer_by_skips(&question, slots),
        Way::Plainly => answer_plainly(&question, slots),
    }
}

// Tells the most bytes that a record can need with this cut and n slots above it, so that room can be reserved before anything is written.
#[tactic(auto, using(crate::proofs::Reserving::bounds))]
pub fn bound(u: u32, block: u32, cut: u32, n: u32) -> Bound
    ensures { MeetsBound u block cut n result }
{
    match check_bound(u, block, cut, n) {
        Ok(()) => Bound {
            number: 0,
            place: 0,
            bytes: most_bytes(u, block, cut, n),
        },
        Err(fault) => Bound {
            number: fault.number(),
            place: 0,
            bytes: 0,
        },
    }
}

// The answer to a writing or a closing that is refused: nothing has been made.
fn unwritten(refusal: Refusal) -> Written
    ensures { result ≡ unmade (number_of refusal.fault) refusal.place }
{
    Written {
        number: refusal.fault.number(),
        place: refusal.place,
        length: 0,
    }
}

// Writes the record of slots with a cut to the front of `room`; the bytes behind it stay. It is measured first, and nothing is written before
// every refusal is ruled out.
#[tactic(auto, using(crate::proofs::Writing::writings))]
pub fn write(u: u32, block: u32, cut: u32, slots: &[u32], room: &mut [u8]) -> Written
    ensures { MeetsWrite u block cut slots.now room.old result room.new }
{
    if let Err(refusal) = check_write(u, block, cut, slots) {
        return unwritten(refusal);
    }
    let lay = lay_out(block, cut, slots);
    let end = lay.end;
    let length = end as u32;
    if room.len() < end {
        return unwritten(Refusal {
            fault: Fault::Room,
            place: length,
        });
    }
    put_record(room, lay, block, cut, slots);
    Written {
        number: 0,
        place: 0,
        length,
    }
}

// Closes an index whose records lie in the first `total` bytes of `room`: directory and trailer are written behind them. Nothing is written
// before every refusal is ruled out.
#[tactic(auto, using(crate::proofs::Closing::closings))]
pub fn close(room: &mut [u8], u: u32, block: u32, total: u32, starts: &[u32]) -> Written
    ensures { MeetsClose room.old u block total starts.now result room.new }
{
    if let Err(found) = check_close(&room[..], u, block, total, starts) {
        return unwritten(found);
    }
    put_frame(room, u, block, total, starts);
    let size = closed_size(total, starts) as u32;
    Written {
        number: 0,
        place: 0,
        length: size,
    }
}
