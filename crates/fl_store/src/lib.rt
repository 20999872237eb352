//! The store of an image: its tables, made for the lines of a configuration, found by their names and mounted one after another, and
//! the flash on its medium.
#![tactic(auto)]

mod blob;
mod calls;
mod fault;
mod found;
mod found_table;
mod laws;
mod layout;
mod made;
mod pages;
mod replies;
mod scan;
mod sizes;
mod status;
mod store;
mod tables;

pub use fault::StoreFault;
pub use found::FoundImage;
pub use found_table::FoundTable;
pub use laws::{new_images_are_empty, stores_hold};
pub use layout::Layout;
pub use made::{config_of, make_image};
pub use pages::Pages;
pub use replies::{fault_reply, flush_reply, put_reply};
pub use sizes::{Cursor, KNOTS, LoggedTable, SLOTS, Table};
pub use status::mount_status;
pub use store::Store;
pub use tables::{BadMount, Entry, Tables};
