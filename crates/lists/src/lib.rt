// What every other crate says of numbers below a bound, of tables and of rows in lent memory: definitions and laws in specs/. There
// is no code here.

#![tactic(auto)]
