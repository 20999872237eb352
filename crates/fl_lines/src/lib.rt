//! The lines of a text that a source gives, one by one, with room for one of them.
#![tactic(auto)]

mod lines;

pub use lines::{Lines, LinesFault};
