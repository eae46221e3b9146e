// That the order of a sheet's lines does not matter to its findings: theorems over the checker's definitions, in specs/ and proofs/.

#![tactic(auto)]
