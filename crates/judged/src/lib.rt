// Examples of looking: an index as it is or with one thing wrong, and the number that it gets. A library beside the program of examples, so that each stays quick to prove.
#![tactic(auto)]

pub mod looking;
pub mod records;
