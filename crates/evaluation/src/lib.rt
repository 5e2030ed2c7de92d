#![tactic(auto)]

// Theorems about evaluations: their shape, what the outcome sets say of them, that each exists, and what decides them.
// This crate has definitions (specs/) and theorems (proofs/) and no code that runs.
