//! Queries of a table, and the replies to them: its rows, what operators make of them, and its blobs.
#![tactic(auto)]

mod blob;
mod blob_line;
mod blob_note;
mod buffers;
mod cursor_lines;
mod cursors;
mod field_lines;
mod group_lines;
mod listing;
mod lookup;
mod oldest;
mod operators;
mod pair_lines;
mod reply_lines;
mod row_lines;
mod rows;
mod scans;

pub use blob::show_blob;
pub use buffers::Buffers;
pub use cursors::{next_rows, open_cursor};
pub use lookup::look_up;
pub use oldest::oldest_blob;
pub use operators::{Comparison, Operator, join, lacked, operate};
pub use scans::list_rows;
