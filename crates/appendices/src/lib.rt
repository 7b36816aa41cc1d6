// The worked examples of the standards' appendices, no code: see proofs/Examples.antt (FIPS-197) and proofs/Cmac.antt (SP 800-38B).
#![tactic(auto)]
