#![tactic(auto)]

// The sequences of calls of the C interface, as sequences of public calls. No code.
