#![tactic(auto)]

// What an accepted call gives: theorems, no code.
