// A question whose index is accepted: its refusals, its names by rising count, the candidates of the smallest list, and their way through the
// other lists.
#![tactic(auto)]

ghost use Rattle.std.specs.Prelude.{◌≡◌, ◌≤◌, length, IfOk};
ghost use Rattle.paper.specs.Refusal.{accepted, fault10, fault11, fault14};
ghost use Rattle.paper.specs.Index.{k_of};
ghost use Rattle.paper.specs.Fault.{told};
ghost use Rattle.paper.specs.Ask.{answer_slots};
ghost use Rattle.record.specs.Front.{Front};
ghost use Rattle.question.specs.Ways.{number_of};
ghost use Rattle.question.specs.Answered.{Gathered, Answers};

mod ranked;
mod way;

use gather::clear;
use names::{Index, gather_name, merge_rising, walk_name};
use paper::Answer;
use paper::refusal::{Fault, Refusal};
pub use ranked::{Ranked, rank};
use ranks::good_names;
pub use way::Way;

// 14, 10 and 11 of a question: the way.
// Kept: the way comes as a number here. This is where 14 is told of it, as `fault14` says.
#[tactic(auto, using(crate::proofs::Naming::namings))]
pub fn check_names(index: Index<'_>, way: u32, names: &[u32]) -> Result<Way, Refusal>
    ensures told { told result ≡ fault14 way (fault10 names.now (fault11 (k_of index.entry.bytes.now) names.now accepted)) }
    ensures way { IfOk result (λ known. number_of known ≡ way) }
{
    let way = Way::try_from(way)?;
    if names.len() < 1 || 16 < names.len() {
        return Err(Fault::Names.into());
    }
    let good = good_names(names, index.k());
    if good < names.len() {
        return Err(Refusal {
            fault: Fault::Name,
            place: good as u32,
        });
    }
    Ok(way)
}

// Gathers the candidates: the slots of the smallest list named.
// Kept: that the slots have room for the smallest list is asked for here and in the three functions behind. The slice is the caller's, and `ask` has just held it against
// the room: a struct of both would be made for that one call, to say the same.
#[tactic(auto, using(crate::proofs::Asking::firsts))]
fn start(question: &Ranked<'_>, slots: &mut [u32]) -> usize
    requires { question.now.room ≤ length slots.old }
    ensures { Gathered question.now.index.bytes.now question.now.names.now result slots.new }
{
    let at = question.order[0] as usize;
    gather_name(question.index, question.names[at], slots)
}

// Answers a question by skips that has room enough: the candidates walk through the list of each further name, in order. What is left of them
// stands at the front, and 0 behind. What a walk costs is told at the position of its name, and in the sums.
#[tactic(auto, using(crate::proofs::Asking::others))]
pub fn answer_by_skips(question: &Ranked<'_>, slots: &mut [u32]) -> Answer
    requires { question.now.room ≤ length slots.old }
    ensures { Answers question.now.index.bytes.now 1 question.now.names.now slots.old result slots.new }
{
    let mut left = start(question, slots);
    let mut looks: u64 = 0;
    let mut codes: u64 = 0;
    let mut looks16 = [0u64; 16];
    let mut codes16 = [0u64; 16];
    for position in question.further() {
        let at = *position as usize;
        let w = walk_name(question.index, question.names[at], &mut slots[..left]);
        left = w.count;
        looks += w.looks;
        codes += w.codes;
        looks16[at] = w.looks;
        codes16[at] = w.codes;
    }
    clear(slots, left);
    Answer {
        number: 0,
        place: 0,
        count: left as u32,
        looks,
        codes,
        looks16,
        codes16,
    }
}

// Plainly: the candidates are merged with the list of each further name, in order.
// Kept: a loop beside that of `answer_by_skips`. One loop with the step as a closure would have to carry sums and places that this way does not have.
#[tactic(auto, using(crate::proofs::Asking::others))]
fn by_merging(question: &Ranked<'_>, slots: &mut [u32]) -> usize
    requires { question.now.room ≤ length slots.old }
    ensures { Front (answer_slots question.now.index.bytes.now question.now.names.now) result slots.new × (result ≤ 1048576) }
{
    let mut left = start(question, slots);
    for position in question.further() {
        let at = *position as usize;
        left = merge_rising(question.index, question.names[at], &mut slots[..left]);
    }
    left
}

// Answers the same question plainly. It reports no looks and no codes.
pub fn answer_plainly(question: &Ranked<'_>, slots: &mut [u32]) -> Answer
    requires { question.now.room ≤ length slots.old }
    ensures { Answers question.now.index.bytes.now 0 question.now.names.now slots.old result slots.new }
{
    let count = by_merging(question, slots);
    clear(slots, count);
    Answer {
        number: 0,
        place: 0,
        count: count as u32,
        looks: 0,
        codes: 0,
        looks16: [0; 16],
        codes16: [0; 16],
    }
}
