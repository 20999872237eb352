//! The export of a table of an image: its records whose keys are in a range, as lines of CSV.
#![tactic(auto)]

ghost use Rattle.fl_export.specs.Laws.{ExportsReadBack};

mod blob;
mod export;
mod fault;
mod record;
mod rooms;
mod rows;
mod table;

pub use export::export_image;

/// The text of an export, read line by line, means just the records that it selects, where none of their blobs is gone.
pub fn exports_read_back()
    ensures { ExportsReadBack }
{}
