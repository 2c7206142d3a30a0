// One outcome for each public function, said of the contracts themselves: no code, only laws.
#![tactic(auto)]
