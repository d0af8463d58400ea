// Mathematics alone: the definitions are in specs/, the laws in proofs/. There is no code here.
#![tactic(auto)]
