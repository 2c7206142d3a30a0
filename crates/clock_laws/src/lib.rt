// What holds over runs of samples, by the definitions of `clock`: no code, only laws.
#![tactic(auto)]
