// What a call answers and leaves, no code: see specs/Outcome.antt.
#![tactic(auto)]
