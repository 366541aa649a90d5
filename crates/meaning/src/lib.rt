// Theorems about the definitions of crate `paper` that contracts above need, in proofs/: what an accepted record is and what its list
// holds, where the search leads, what a walk keeps, and the order of the lists. There is no code here.
#![tactic(auto)]
