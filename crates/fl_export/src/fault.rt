// Why records aren't written to the end.
ghost use Rattle.std.specs.Prelude.{◌≡◌};

use fl_base::SinkFailed;
use fl_csv::CsvFault;
use fl_page::ReadFault;
use std::alloc::AllocError;

/// Why records aren't written to the end.
#[derive(Clone, Copy, Debug)]
pub enum ExportFault {
    /// There is no memory for a line, or for the bytes of a blob that is longer than the table's limit.
    NoMemory,
    /// The sink failed.
    Sink(SinkFailed),
    /// A page wasn't read, or is bad.
    Read(ReadFault),
}

impl From<AllocError> for ExportFault {
    ghost use Rattle.fl_export.specs.declared.fault.ExportFault.{ExportFault};

    ghost from_gives = { λ failed fault. fault ≡ ExportFault.NoMemory };

    fn from(_: AllocError) -> ExportFault {
        ExportFault::NoMemory
    }
}

impl From<SinkFailed> for ExportFault {
    ghost use Rattle.fl_export.specs.declared.fault.ExportFault.{ExportFault};

    ghost from_gives = { λ failed fault. fault ≡ ExportFault.Sink failed };

    fn from(failed: SinkFailed) -> ExportFault {
        ExportFault::Sink(failed)
    }
}

impl From<ReadFault> for ExportFault {
    ghost use Rattle.fl_export.specs.declared.fault.ExportFault.{ExportFault};

    ghost from_gives = { λ failed fault. fault ≡ ExportFault.Read failed };

    fn from(failed: ReadFault) -> ExportFault {
        ExportFault::Read(failed)
    }
}

impl From<CsvFault> for ExportFault {
    ghost use Rattle.fl_export.specs.Writing.{of_line};

    ghost from_gives = { λ failed fault. fault ≡ of_line failed };

    fn from(failed: CsvFault) -> ExportFault {
        match failed {
            CsvFault::Sink(failed) => ExportFault::Sink(failed),
            CsvFault::NoMemory => ExportFault::NoMemory,
        }
    }
}
