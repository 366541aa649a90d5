// Laws about the definitions of crate `paper`, in proofs/: what proofs of code cite instead of opening a definition. There is no code here.
#![tactic(auto)]
