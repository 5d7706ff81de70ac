#![tactic(auto)]

// The demands, proved over all sequences of calls. No code.
