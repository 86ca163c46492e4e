#![tactic(auto)]

// Facts on lists, tests and numbers that no library of the kit has. There is no code here: see specs/ and proofs/.
