// Definitions and laws only: see specs/Aes.antt and proofs/.
#![tactic(auto)]
