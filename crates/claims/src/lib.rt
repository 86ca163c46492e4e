#![tactic(auto)]

// What is demanded of the whole, stated over the definitions and shown from them.
// There is no code here: see specs/ and proofs/.
