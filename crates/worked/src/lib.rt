#![tactic(auto)]

// Document 01's worked examples, P1 to P10, computed on the definitions that the promises cite. No code.
