//! The configuration of one table, and why one is refused.
#![tactic(auto)]

mod limits;
mod refusal;
mod table_config;

pub use limits::{are_blocks, has_room_for, has_room_for_blobs, is_block_size, is_page_size};
pub use refusal::ConfigRefusal;
pub use table_config::TableConfig;
