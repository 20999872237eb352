//! Operators over rows, pulled row by row: selection, projection, groups and key join.
#![tactic(auto)]

mod aggregate;
mod columns;
mod group;
mod join;
mod project;
mod select;
mod selection;
mod tally;
mod values;

pub use aggregate::Aggregate;
pub use group::Group;
pub use join::{KeyJoin, next_pair};
pub use project::Project;
pub use select::Select;
pub use selection::selection_is_the_models;
pub use values::values_of;
