#![tactic(auto)]

// What an opening and an edit leave in the text and in the memo table, and which pairs stand.
// This crate has definitions (specs/) and theorems (proofs/) and no code that runs.
