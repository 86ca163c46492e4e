#![tactic(auto)]

// The stream as a definition: its record and store, a trial, a call, open, and calls one after the other.
// There is no code here: see specs/ and proofs/.
