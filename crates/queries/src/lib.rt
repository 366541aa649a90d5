// Examples in which an index is asked, tested or counted, or the next slot is told. A library beside the program of examples, so that each stays quick to prove.
#![tactic(auto)]

pub mod asking;
pub mod lists;
pub mod nexts;
