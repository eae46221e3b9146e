// That reading a load file (`file_read`) and writing one (`file_write`) undo each other: laws in specs/ and proofs/. There is no code here.

#![tactic(auto)]
