#![tactic(auto)]

// The theorems on captures, their walk, their reader and their writer stand in proofs/; this crate has no code.
