//! Cursors: the rows of a table that are asked for, one after another, across puts and reclaimed pages.
#![tactic(auto)]

mod bookmark;
mod cursor;
mod end;
mod laws;
mod place;
mod rows;
mod search;
mod start;
mod walk;

pub use bookmark::Bookmark;
pub use cursor::Cursor;
pub use laws::{cursor_is_the_models, faults_read_once};
