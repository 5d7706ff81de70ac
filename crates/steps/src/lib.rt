#![tactic(auto)]

// What each step does to a state, and its laws: definitions and theorems, no code.
