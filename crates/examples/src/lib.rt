// The twelve worked examples are a table of specs/ and a theorem of proofs/.
#![tactic(auto)]
