// What a visit of one node finds: its outcomes from the sets known so far, and whether it joins the well-formed set. The crate
// `checker` makes the rounds of visits.
#![tactic(auto)]

mod nodes;
pub mod sets;
pub mod table;

pub use nodes::Nodes;
