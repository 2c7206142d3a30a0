// What holds of the thirteen-cell pack over calls and over its events: no code, only laws.
#![tactic(auto)]
