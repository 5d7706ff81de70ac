#![tactic(auto)]

// Save and load, there and back: theorems, no code.
