// Why rows aren't shipped to the end.
ghost use Rattle.std.specs.Prelude.{◌≡◌};

use fl_page::ReadFault;
use fl_table::{FlushFault, PutRefusal};

/// Why rows aren't shipped to the end.
#[derive(Clone, Copy, Debug, PartialEq, Eq)]
pub enum ShipFault {
    /// A page of the rows wasn't read, or is bad. The rows before it were put, and are not flushed.
    Read(ReadFault),
    /// A row wasn't put, since the copy has no page number left or its flash failed. With `Spent` the rows before it were put, and are
    /// not flushed.
    Put(PutRefusal),
    /// The copy's flash failed in the flush.
    Flush(FlushFault),
}

impl From<ReadFault> for ShipFault {
    ghost use Rattle.fl_ship.specs.declared.fault.ShipFault.{ShipFault};

    ghost from_gives = { λ failed fault. fault ≡ ShipFault.Read failed };

    fn from(failed: ReadFault) -> ShipFault {
        ShipFault::Read(failed)
    }
}

impl From<PutRefusal> for ShipFault {
    ghost use Rattle.fl_ship.specs.declared.fault.ShipFault.{ShipFault};

    ghost from_gives = { λ refusal fault. fault ≡ ShipFault.Put refusal };

    fn from(refusal: PutRefusal) -> ShipFault {
        ShipFault::Put(refusal)
    }
}

impl From<FlushFault> for ShipFault {
    ghost use Rattle.fl_ship.specs.declared.fault.ShipFault.{ShipFault};

    ghost from_gives = { λ failed fault. fault ≡ ShipFault.Flush failed };

    fn from(failed: FlushFault) -> ShipFault {
        ShipFault::Flush(failed)
    }
}
