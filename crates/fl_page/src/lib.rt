//! Data pages: rows gathered into the body of a page, and read as slices of a page.
#![tactic(auto)]

mod fault;
mod header;
mod rows;
mod view;
mod writer;

pub use fault::{BadPage, ReadFault};
pub use rows::{RowHere, Rows};
pub use view::PageView;
pub use writer::PageWriter;
