#![tactic(auto)]

// The three demands, each as one record, and that they hold. No code.
