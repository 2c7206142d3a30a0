// Idle chatter, for anything on the bus: what can be struck out of its history with nothing else changed. No code, only laws.
#![tactic(auto)]
