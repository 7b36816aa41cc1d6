// The theorems of the public calls, no code: see proofs/Theorems.antt.
#![tactic(auto)]
