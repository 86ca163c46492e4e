#![tactic(auto)]

// What a full disjunction is and why the stream's rule finds every set of it. There is no code here: specs/Sets and specs/Cells render
// document 000, specs/Rule and specs/Keeping document 01; proofs/ goes from RowSets over Extending, Starting and Completeness to KeepingLaws.
