//! An index of data pages: the entries of sealed ones gather in memory, and stand in pages of a ring of their own.
#![tactic(auto)]

mod index;
mod load;
mod lookup;
mod mount;
mod page;
mod seal;
mod waiting;

pub use index::BitmapIndex;
pub use load::Loaded;
pub use page::{EntryForm, Found, Full, bitmap_in, entry_len, first_in, found_in};
