// Theorems, in specs/: the contract of each public call asks nothing of its caller, and two results that it allows are equal.

#![tactic(auto)]
