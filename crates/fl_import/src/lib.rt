//! The import of records into a table of an image: the lines of CSV that a source gives, each a put or a refusal.
#![tactic(auto)]

mod begin;
mod import;
mod job_end;
mod line;
mod line_end;
mod lines;
mod names;
mod report;
mod table;
mod taking;

pub use import::import_image;
pub use job_end::{JobEnd, LinesTaken};
