//! The parts of a table: its index and its variable data, where it has them, and what a mount learns of the data pages that it keeps.
#![tactic(auto)]

mod ahead;
mod bitmaps;
mod blob_end;
mod blobs;
mod by_entries;
mod kept;
mod keys;
mod known;
mod load;
mod mount_fault;
mod values;

pub use ahead::Ahead;
pub use bitmaps::{make_room, mount_bitmaps, note_entry};
pub use blob_end::{least_of, reference_end};
pub use blobs::{mount_within, place, seal_rest};
pub use kept::read_kept;
pub use keys::last_key_after;
pub use known::{Known, Listed, note};
pub use mount_fault::MountFault;
pub use values::misfit;
