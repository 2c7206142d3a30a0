// The theorems on transactions, over the definitions of `bus`: no code, only laws.
#![tactic(auto)]
