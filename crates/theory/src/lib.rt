#![tactic(auto)]

// The demands on states, over every plan that meets the plan rules and all sequences of steps. No code.
