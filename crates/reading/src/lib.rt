// Reading: the start pair of an accepted grammar over a text, plain and over the records of a session.
#![tactic(auto)]

pub mod code;
pub mod pair;
pub mod plain;
pub mod session;
mod start;
