// A glance at the bytes of a block, eight at a time: what it counts (in `specs/`), and that what it accepts the exact reading accepts (in `proofs/`). There is no code here.
#![tactic(auto)]
