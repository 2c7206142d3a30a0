// The theorems on requests and replies, over the definitions of `frame`: no code, only laws.
#![tactic(auto)]
