#![tactic(auto)]

// The plain ledger and demand 3: one claim over every list of a sheet's calls. This crate has definitions (specs/) and theorems
// (proofs/), and no code that runs.
