#![tactic(auto)]

// What the loader and the writer are to each other: the round trips of an image, and the edges of document 01.
// There is no code here: see specs/ and proofs/.
