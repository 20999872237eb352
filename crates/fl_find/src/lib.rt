//! The page of a key in a ring of data pages: by the line of a spline where the key is covered, else by halves.
#![tactic(auto)]

ghost use Rattle.std.specs.Prelude.{◌≤◌};

mod find;
mod first;
mod index;
mod keys;
mod laws;
mod row;
mod search;
mod seek;

pub use index::KeyIndex;
pub use keys::PageKeys;
pub use laws::points_go_with_pages;
pub use row::PageRow;
