// What the program of examples is written with: lines of output, and indexes made for an example.
#![tactic(auto)]

pub mod make;
pub mod show;
