// The language of grammars: what an image holds, which images are accepted, and what Ford's rules say that a node does
// at a position of a text. This crate has definitions (specs/), theorems (proofs/) and the types of
// what is read and refused.
#![tactic(auto)]

mod bits;
mod node;
mod refusal;

pub use bits::field;
pub use node::{Node, NodeFields, Terminal};
pub use refusal::Refusal;

// What an evaluation has: "an outcome, a length, an examined length and a nesting".
#[derive(Clone, Copy)]
pub struct Evaluation {
    pub matched: bool,
    pub length: usize,
    pub examined: usize,
    pub nesting: usize,
}
