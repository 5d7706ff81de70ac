#![tactic(auto)]

// The paper to the letter, on states, over every plan that meets the plan rules. No code.
