#![tactic(auto)]

// The marked cases of the paper, as one table of which one theorem says that every line holds, and a second table of witnesses: an image
// for each number of the image check that no marked case has, and sessions that the marked cases leave out. M1 to M6 are sessions, M10
// is plain readings. This crate has definitions (specs/) and theorems (proofs/) and no code that runs.
