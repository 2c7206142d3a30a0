// The theorems on the numbers that the entries for C give stand in proofs/; this crate has no code.
#![tactic(auto)]
