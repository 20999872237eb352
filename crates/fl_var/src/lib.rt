//! Variable-length data: blobs in the pages of a ring of their own, and those that wait in memory for their page.
#![tactic(auto)]

mod kept;
mod mount;
mod open;
mod page;
mod place;
mod reader;
mod var_data;
mod waiting;

pub use reader::BlobReader;
pub use var_data::VarData;
