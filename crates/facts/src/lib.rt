#![tactic(auto)]

// The three facts for the archive's front page (request #114), stated over what the public calls promise.
// There is no code here: see specs/ and proofs/.
