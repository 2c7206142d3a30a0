// The theorems on the state's area stand in proofs/; this crate has no code.
#![tactic(auto)]
