// What a reader is promised, in proofs/: theorems about the definitions of crate `paper`, each a named statement in plain words. There is
// no code here, and nothing depends on this crate.
#![tactic(auto)]
