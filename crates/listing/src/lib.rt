// Listing: the walk over the records that a reading left, which counts and writes rows.
#![tactic(auto)]

mod bytes;
pub mod list;
mod slots;
pub mod start;
mod state;
mod walk;
