// The theorems on edits of a pack sheet stand in proofs/; there is no code here, so that an edit of the code stays cheap to check.
#![tactic(auto)]
