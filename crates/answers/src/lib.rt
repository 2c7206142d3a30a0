// The order of the answer numbers, read off one list for each public function: no code, only laws.
#![tactic(auto)]
