// The theorems on pack keys stand in proofs/; this crate has no code.
#![tactic(auto)]
