// Theorems on the extreme-point placer and its runs, in specs/: the numbers of the answers, the least point, the states that
// the calls reach, the order of a run and what its plan tells.

#![tactic(auto)]
