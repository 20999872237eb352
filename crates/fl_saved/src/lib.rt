//! The law that ties the salvage of an image to its export: where the image stands for tables, a salvage writes the text that the
//! export of such a table has.
#![tactic(auto)]

ghost use Rattle.fl_saved.specs.Saved.{SavedAsExported};
ghost use Rattle.fl_saved.specs.ShortBlobs.{ShortBlobsStay};

/// Of a table that an image stands for, a salvage writes the text that an export has for all of its records: each in the order
/// of the keys, with its blob unless that is gone. It passes over the void pages of the data ring and the torn one alone. This
/// holds where neither the data ring nor the ring of variable data has a block that waits for its erase, and no blob is longer
/// than the table's limit. The records are those before a mount: one that makes a torn page void may give up a block of them, and one of a
/// table with a log brings in those that the log alone has.
pub fn saved_as_exported()
    ensures { SavedAsExported }
{}

/// In each run no blob of a table is longer than the table's limit, if none was at first; and a new table has none.
pub fn short_blobs_stay()
    ensures { ShortBlobsStay }
{}
