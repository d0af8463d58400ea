// The product as definitions (specs/) and the proofs of what is claimed of them (proofs/). There is no code here.
#![tactic(auto)]
