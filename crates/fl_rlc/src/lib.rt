//! A table whose accepted records survive the next power cut: each put ends with a page of its pending rows in a log.
#![tactic(auto)]

mod join;
mod log;
mod log_mount;
mod mount;
mod plan;
mod put;
mod refusal;
mod replay;
mod rings;
mod rows;
mod seal;
mod table;

pub use rings::RingCounts;
pub use table::LoggedTable;
