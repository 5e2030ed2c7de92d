#![tactic(auto)]

// The rows of a listing, the walk that lists them as a function, and the theorem that the walk over the records of a reading gives
// exactly the rows. This crate has definitions (specs/) and theorems (proofs/) and no code that runs.
