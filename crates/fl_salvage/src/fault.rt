// Why rows aren't written to the end.
ghost use Rattle.std.specs.Prelude.{◌≡◌};

use fl_base::{NoMemory, SinkFailed};
use fl_csv::CsvFault;
use fl_flash::MediaFailed;
use fl_image::ToolStatus;
use std::alloc::AllocError;

/// Why rows aren't written to the end.
#[derive(Clone, Copy)]
pub(crate) enum SalvageFault {
    /// The medium failed.
    Media,
    /// The sink failed.
    Sink,
    /// There is no memory.
    NoMemory,
}

impl SalvageFault {
    ghost use Rattle.fl_salvage.specs.Faults.{status_of};

    /// The status of a job that ends by it.
    pub(crate) fn status(self) -> ToolStatus
        ensures { result ≡ status_of self }
    {
        match self {
            SalvageFault::Media => ToolStatus::Device,
            SalvageFault::Sink => ToolStatus::OutWrite,
            SalvageFault::NoMemory => ToolStatus::NoMemory,
        }
    }
}

impl From<MediaFailed> for SalvageFault {
    ghost use Rattle.fl_salvage.specs.declared.fault.SalvageFault.{SalvageFault};

    ghost from_gives = { λ failed fault. fault ≡ SalvageFault.Media };

    fn from(_: MediaFailed) -> SalvageFault {
        SalvageFault::Media
    }
}

impl From<AllocError> for SalvageFault {
    ghost use Rattle.fl_salvage.specs.declared.fault.SalvageFault.{SalvageFault};

    ghost from_gives = { λ failed fault. fault ≡ SalvageFault.NoMemory };

    fn from(_: AllocError) -> SalvageFault {
        SalvageFault::NoMemory
    }
}

impl From<NoMemory> for SalvageFault {
    ghost use Rattle.fl_salvage.specs.declared.fault.SalvageFault.{SalvageFault};

    ghost from_gives = { λ failed fault. fault ≡ SalvageFault.NoMemory };

    fn from(_: NoMemory) -> SalvageFault {
        SalvageFault::NoMemory
    }
}

impl From<SinkFailed> for SalvageFault {
    ghost use Rattle.fl_salvage.specs.declared.fault.SalvageFault.{SalvageFault};

    ghost from_gives = { λ failed fault. fault ≡ SalvageFault.Sink };

    fn from(_: SinkFailed) -> SalvageFault {
        SalvageFault::Sink
    }
}

impl From<CsvFault> for SalvageFault {
    ghost use Rattle.fl_salvage.specs.Faults.{of_line};

    ghost from_gives = { λ failed fault. fault ≡ of_line failed };

    fn from(failed: CsvFault) -> SalvageFault {
        match failed {
            CsvFault::Sink(_) => SalvageFault::Sink,
            CsvFault::NoMemory => SalvageFault::NoMemory,
        }
    }
}
