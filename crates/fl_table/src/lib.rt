//! A table: its records in the pages of a ring, and those that wait in memory for their page.
#![tactic(auto)]

mod blob_at;
mod counts;
mod entry;
mod facts;
mod faults;
mod find;
mod laws;
mod look_ahead;
mod mount;
mod page;
mod pending;
mod plan;
mod put;
mod refusal;
mod rings;
mod seal;
mod state;
mod table;

pub use counts::{Mounted, TableCounts};
pub use faults::{FlushFault, PutRefusal};
pub use find::RowAt;
pub use fl_parts::{Ahead, MountFault, last_key_after};
pub use laws::mounts_may_follow;
pub use rings::TableRings;
pub use table::Table;
