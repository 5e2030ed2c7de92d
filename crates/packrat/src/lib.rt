#![tactic(auto)]

// Packrat evaluation: evaluating over a memo table, as a function, and what it stores. This crate has definitions (specs/) and theorems
// (proofs/), and no code that runs.
