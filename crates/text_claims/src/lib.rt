#![tactic(auto)]

// What is claimed of a table read from text and written as text: theorems over the two calls' promises. There is no code here.
