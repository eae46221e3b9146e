// Theorems on the runs of the layer placer, in specs/ and proofs/: the fill over fewer boxes begins the fill over more, the
// seeds of a fill make that fill again, and the orientation that is chosen is the least by its score.

#![tactic(auto)]
