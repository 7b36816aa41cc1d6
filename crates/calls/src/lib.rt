// What each public call promises, no code: see specs/Calls.antt.
#![tactic(auto)]
