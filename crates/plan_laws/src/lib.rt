// Theorems on finished plans, in specs/ and proofs/: the planned sheet of an accepted order is accepted, for both placers.

#![tactic(auto)]
