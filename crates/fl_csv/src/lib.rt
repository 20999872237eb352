//! Records as lines of CSV, both ways: a line of the columns' names, and a line for each record.
#![tactic(auto)]

ghost use Rattle.fl_csv.specs.Laws.{BareLines, HeadersReadBack, LinesReadBack, QuotesAsCsv, TextsReadBack};

mod bare;
mod field;
mod header;
mod quotes;
mod read;
mod record;
mod row;
mod write;

pub use header::is_header;
pub use read::read_record;
pub use record::{BlobBytes, CsvBlob, CsvFault, CsvPut, CsvRefusal, GoneBlobs, LineForm};
pub use write::{header_line, write_record};

/// What is written of a record that fits is read back as that record.
pub fn lines_read_back()
    ensures { LinesReadBack }
{}

/// The line of the names is read as such.
pub fn headers_read_back()
    ensures { HeadersReadBack }
{}

/// The text of records that fit is read back, line by line, as these records.
pub fn texts_read_back()
    ensures { TextsReadBack }
{}

/// A line ends between quotes just where the crate csv reads it so.
pub fn quotes_as_csv()
    ensures { QuotesAsCsv }
{}

/// A line that is cut at its commas is read by the crate csv as the one record of these fields.
pub fn bare_lines()
    ensures { BareLines }
{}
