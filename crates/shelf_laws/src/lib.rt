#![tactic(auto)]

// What holds of Monday's figures, by the definitions of `shelf` and `shelf_table`: no code, only laws.
