#![tactic(auto)]

// Laws about lists that the later crates share. No code: definitions in specs/, laws in proofs/.
