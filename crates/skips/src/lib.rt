// The way by skips through one list: the candidates are tried in it one after the other, lowest first, and the ones that it lacks are dropped
// where they stand.
#![tactic(auto)]

ghost use Rattle.std.specs.Prelude.{◌≤◌, length};
ghost use Rattle.paper.specs.Walk.{walk_list};
ghost use Rattle.record.specs.Holds.{list_of};
ghost use Rattle.record.specs.Front.{Candidates};
ghost use Rattle.skips.specs.Walks.{Walks};

use record::Held;
use search::try_slot;

// What a walk leaves and costs: how many candidates are kept, the looks and the codes read.
#[derive(Drop)]
pub struct Walked {
    pub count: usize,
    pub looks: u64,
    pub codes: u64,
}

// Walks candidates through a list, the finger starting at 0. Those found stand at the front afterwards, in their order. Each is stored behind those kept before it,
// found or not, and stays where it is found; the place written to is never ahead of the one read.
// Kept: that the slots are candidates is asked for here, and in `plain`, `marks` and `names` too. They are the front of the caller's own slice, cut anew for each
// list: a struct round it would be made for one call each time, to say the same.
pub fn walk(list: &Held<'_>, slots: &mut [u32]) -> Walked
    requires { Candidates (length slots.old) slots.old × (length slots.old ≤ 1048576) }
    ensures { Walks (walk_list (list_of list.now) 0 slots.old) result slots.new }
{
    let mut kept: usize = 0;
    let mut finger: usize = 0;
    let mut looks: u64 = 0;
    let mut codes: u64 = 0;
    for at in 0..slots.len() {
        let x = slots[at];
        let step = try_slot(list, finger, x);
        looks += u64::from(step.looks);
        codes += u64::from(step.codes);
        finger = step.finger;
        slots[kept] = x;
        kept += usize::from(step.told);
    }
    Walked {
        count: kept,
        looks,
        codes,
    }
}
