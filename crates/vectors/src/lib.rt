// Cases of an independent implementation, computed by the definitions: see proofs/. There is no code here, and nothing depends on this crate.
#![tactic(auto)]
