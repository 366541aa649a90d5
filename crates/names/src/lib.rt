// One name of an accepted index: its record, a part of the index. Of a question: its slots gathered; the candidates taken through its list
// by either way. And the counts of all names.
#![tactic(auto)]

ghost use Rattle.std.specs.Prelude.{◌≡◌, map, ◌≤◌, ◌<◌, length, take};
ghost use Rattle.paper.specs.Lists.{has, keep};
ghost use Rattle.paper.specs.Held.{count_of};
ghost use Rattle.paper.specs.Index.{u_of, k_of, record_of};
ghost use Rattle.paper.specs.Walk.{walk_list};
ghost use Rattle.paper.specs.Ask.{named};
ghost use Rattle.meaning.proofs.Rising.{Ascends};
ghost use Rattle.record.specs.Front.{Front, Candidates};
ghost use Rattle.skips.specs.Walks.{Walks};
ghost use Rattle.plain.specs.Sifted.{plainly};
ghost use Rattle.names.specs.Asked.{Asked, list_named, slots_named};

mod index;

use gather::gather;
pub use index::Index;
use plain::merge;
use record::count_record;
use skips::{Walked, walk};

// The slots of one name's list, gathered.
// Kept: that the name is one of the index is asked for here, in the functions behind and in `Index`. A name is a number that callers give, and a type for those of one index would have to
// hold the index once more. So stand the four functions of one name side by side, each with the promise of the way that it goes; they are public.
pub fn gather_name(index: Index<'_>, name: u32, slots: &mut [u32]) -> usize
    requires { (name < k_of index.bytes.now) × (count_of (record_of index.bytes.now name) ≤ length slots.old) }
    ensures { Front (slots_named index.entry.bytes.now name) result slots.new }
{
    gather(&index.list(name), slots)
}

// The candidates walked through one name's list by skips.
pub fn walk_name(index: Index<'_>, name: u32, slots: &mut [u32]) -> Walked
    requires { (name < k_of index.bytes.now) × Candidates (length slots.old) slots.old × (length slots.old ≤ 1048576) }
    ensures { Walks (walk_list (list_named index.entry.bytes.now name) 0 slots.old) result slots.new }
{
    walk(&index.list(name), slots)
}

// The candidates merged with one name's list.
pub fn merge_name(index: Index<'_>, name: u32, slots: &mut [u32]) -> usize
    requires { (name < k_of index.bytes.now) × Candidates (length slots.old) slots.old }
    ensures { Front (plainly (list_named index.entry.bytes.now name) slots.old) result slots.new }
{
    merge(&index.list(name), slots)
}

// The candidates, which rise, merged with one name's list: those that it holds are kept.
pub fn merge_rising(index: Index<'_>, name: u32, slots: &mut [u32]) -> usize
    requires { (name < k_of index.bytes.now) × Candidates (length slots.old) slots.old × Ascends (u_of index.bytes.now) 0 slots.old }
    ensures { Front (keep (λ x. has x (slots_named index.entry.bytes.now name)) slots.old) result slots.new }
{
    marks::merge(&index.list(name), slots)
}

// Counts each list named, once.
pub fn count_names(index: Index<'_>, names: &[u32], counts: &mut [u32])
    requires { Asked index.bytes.now names.now × (length names.now ≤ length counts.old) }
    ensures { take (length names.now) counts.new ≡ map count_of (named index.entry.bytes.now names.now) }
{
    for (i, name) in names.iter().enumerate() {
        counts[i] = count_record(index.record(*name));
    }
}
