// Definitions and laws only: see specs/Cmac.antt and proofs/.
#![tactic(auto)]
