// Definitions and laws only: see specs/Layout.antt, specs/Leaves.antt and proofs/.
#![tactic(auto)]
