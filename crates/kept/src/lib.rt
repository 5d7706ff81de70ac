#![tactic(auto)]

// The harm, exactly: when bytes kept from a store are served. No code.
