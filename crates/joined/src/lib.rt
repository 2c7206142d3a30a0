// A pack and its charger on one clock: no code, only laws.
#![tactic(auto)]
