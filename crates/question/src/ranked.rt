// A question whose names stand in order: what has been found out of its index and of its names goes with them.
#![tactic(auto)]

ghost use Rattle.std.specs.Prelude.{◌≡◌, drop};
ghost use Rattle.paper.specs.Question.{positions, smallest};
ghost use Rattle.paper.specs.Ask.{named};
ghost use Rattle.names.specs.Asked.{Asked};
ghost use Rattle.question.specs.Answered.{Ordered};

use names::{Index, count_names};
use ranks::order_of;

// A question that is good: the positions of its names by rising count, and the count of the smallest list, which is the room that it needs.
#[derive(Clone, Copy)]
pub struct Ranked<'a> {
    pub index: Index<'a>,
    pub names: &'a [u32],
    pub order: [u32; 16],
    pub room: u32,
    pub ghost asked: { Asked index.bytes.now names.now },
    pub ghost ordered: { Ordered index.bytes.now names.now order },
    pub ghost least: { room ≡ smallest (named index.bytes.now names.now) },
}

impl<'a> Ranked<'a> {
    // The positions of the names behind that of the smallest list.
    pub fn further(&self) -> &[u32]
        ensures { result.now ≡ drop 1 (positions (named self.now.index.bytes.now self.now.names.now)) }
    {
        &self.order[1..self.names.len()]
    }
}

// Puts the positions of the names in order.
#[tactic(auto, using(crate::proofs::Asking::firsts))]
pub fn rank<'a>(index: Index<'a>, names: &'a [u32]) -> Ranked<'a>
    requires { Asked index.bytes.now names.now }
    ensures { (result.index.bytes.now ≡ index.entry.bytes.now) × (result.names.now ≡ names.entry.now) }
{
    let mut counts = [0u32; 16];
    let mut order = [0u32; 16];
    count_names(index, names, &mut counts);
    order_of(&counts, names.len(), &mut order);
    let first = order[0] as usize;
    let room = counts[first];
    Ranked {
        index,
        names,
        order,
        room,
    }
}
