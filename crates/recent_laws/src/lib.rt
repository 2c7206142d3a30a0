// The rule of AverageCurrent over all milliseconds, and that the recent minute keeps it: no code, only laws.
#![tactic(auto)]
