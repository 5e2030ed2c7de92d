#![tactic(auto)]

// The rounds that find the outcome sets and the well-formed set, as functions of the logic, and the number of an image.
// This crate has definitions (specs/) and theorems (proofs/) and no code that runs.
