// The measured examples P1 to P9. There is no code here: the examples are one table in specs/, over the definitions that the
// contracts of the other crates name.

#![tactic(auto)]
