#![tactic(auto)]

// The paper to the letter, and the conservation of copies, over all sequences of public calls. No code.
