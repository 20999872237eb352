//! The check of an image: whether each of its tables is sound, and the lines that tell it.
#![tactic(auto)]

mod check;
mod checker;
mod extent;
mod finding;
mod report;
mod rings;
mod tables;

pub use check::{check_all, check_image};
pub use checker::CheckTable;
pub use extent::Extent;
pub use report::{write_finding, write_rules};
pub use rings::RingChecker;
