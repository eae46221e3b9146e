// Boxes placed one after the other in a given order, as a run does once it has sorted them: the definition, that a step of the run is a turn of it, and what
// it keeps, in specs/.

#![tactic(auto)]
