//! How large the tables of a configuration are: the rows and blobs that they always keep, the blocks that their indexes want, and the
//! memory and the reads that they take, by its lines alone. No image is opened.
#![tactic(auto)]

mod end;
mod figures;
mod input;
mod laws;
mod lines;
mod plan;
mod rings;
mod sizes;
mod text;
mod words;

pub use end::{PlanEnd, PlanStatus};
pub use laws::{
    full_entries_read_most, full_rings_read_most, index_is_enough, rings_keep, rows_are_kept,
};
pub use plan::plan_tables;
pub use sizes::TableSizes;
pub use words::{PlanJob, plan_of};
