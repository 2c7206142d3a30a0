// The theorems on answers, replies and exchanges of any side of the bus, over the definitions of `commands`: no code, only laws.
#![tactic(auto)]
