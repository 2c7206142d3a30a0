// What holds of the words, by the definitions of `registers`, `times` and `gauge`: no code, only laws.
#![tactic(auto)]
