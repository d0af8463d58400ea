// Five great primes that proof systems use, each proved prime: specs/ has the list of them, proofs/ the trial of their divisors. There is
// no code here. It is a crate of its own because the trial takes seconds, and no edit elsewhere should ask for it again.
#![tactic(auto)]
