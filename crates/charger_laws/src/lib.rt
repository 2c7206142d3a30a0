// What holds of the charger over calls and over its events: no code, only laws.
#![tactic(auto)]
