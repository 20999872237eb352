// How a job ended, and what it counted.
ghost use Rattle.std.specs.Prelude.{◌≡◌};
ghost use Rattle.fl_import.specs.Taken.{end_of};

use fl_csv::LineForm;
use fl_image::ToolStatus;

/// How far the lines of an import were taken.
#[derive(Clone, Copy, Debug, PartialEq, Eq)]
pub struct LinesTaken {
    /// The number of the last line that was put or refused, from 1; 1 is the line of the names. 0 where none was taken.
    pub line: u64,
    /// How many records were put.
    pub rows: u64,
    /// How many of these without a blob, since it is gone.
    pub gone: u64,
}

/// How a job ended.
#[derive(Clone, Copy, Debug, PartialEq, Eq)]
pub struct JobEnd {
    /// The status of the job.
    pub status: ToolStatus,
    /// The rows that the table of an import holds, where that was done.
    pub kept: Option<u64>,
    /// How far an import took its lines.
    pub taken: LinesTaken,
    /// The form of the lines of an import's table, where its tables were mounted: its names are the first line.
    pub form: Option<LineForm>,
}

impl LinesTaken {
    ghost use Rattle.std.specs.Prelude.{◌≡◌};
    ghost use Rattle.fl_import.specs.Taken.{none_taken};

    /// No line was taken.
    pub fn none() -> LinesTaken
        ensures { result ≡ none_taken }
    {
        LinesTaken {
            line: 0,
            rows: 0,
            gone: 0,
        }
    }
}

impl JobEnd {
    /// A job that ended with this status, and has taken no line and counted no rows.
    pub fn of(status: ToolStatus) -> JobEnd
        ensures { result ≡ end_of status }
    {
        JobEnd {
            status,
            kept: None,
            taken: LinesTaken::none(),
            form: None,
        }
    }
}
