// The theorems on pack sheets stand in proofs/; there is no code here, so that an edit of a sheet's code stays cheap to check.
#![tactic(auto)]
