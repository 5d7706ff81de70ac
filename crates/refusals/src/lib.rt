#![tactic(auto)]

// Each refusal of each public call, given exactly when its line holds: theorems, no code.
