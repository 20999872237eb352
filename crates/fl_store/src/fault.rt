// Why a call of a store failed.
ghost use Rattle.std.specs.Prelude.{◌≡◌};

use crate::tables::BadMount;
use fl_base::NoMemory;
use fl_config::ImageRefusal;
use fl_page::ReadFault;
use fl_table::{FlushFault, PutRefusal};
use std::alloc::{AllocError, AllocFailed};

/// Why a call failed: for programs that hand each error on.
#[derive(Clone, Copy, Debug)]
pub enum StoreFault {
    /// Memory isn't there.
    NoMemory,
    /// A text is no configuration.
    Config,
    /// The image isn't opened.
    Image(ImageRefusal),
    /// A table isn't mounted.
    Mount(BadMount),
    /// A record isn't put.
    Put(PutRefusal),
    /// A table isn't flushed.
    Flush(FlushFault),
    /// A page isn't read.
    Read(ReadFault),
}

impl From<AllocError> for StoreFault {
    fn from(_: AllocError) -> StoreFault {
        StoreFault::NoMemory
    }
}

impl<T: Drop> From<AllocFailed<T>> for StoreFault {
    fn from(_: AllocFailed<T>) -> StoreFault {
        StoreFault::NoMemory
    }
}

impl From<NoMemory> for StoreFault {
    ghost use Rattle.fl_store.specs.declared.fault.StoreFault.{StoreFault};

    ghost from_gives = { λ cause fault. fault ≡ StoreFault.NoMemory };

    fn from(_none: NoMemory) -> StoreFault {
        StoreFault::NoMemory
    }
}

impl From<ImageRefusal> for StoreFault {
    ghost use Rattle.fl_store.specs.declared.fault.StoreFault.{StoreFault};

    ghost from_gives = { λ cause fault. fault ≡ StoreFault.Image cause };

    fn from(cause: ImageRefusal) -> StoreFault {
        StoreFault::Image(cause)
    }
}

impl From<BadMount> for StoreFault {
    ghost use Rattle.fl_store.specs.declared.fault.StoreFault.{StoreFault};

    ghost from_gives = { λ cause fault. fault ≡ StoreFault.Mount cause };

    fn from(cause: BadMount) -> StoreFault {
        StoreFault::Mount(cause)
    }
}

impl From<PutRefusal> for StoreFault {
    ghost use Rattle.fl_store.specs.declared.fault.StoreFault.{StoreFault};

    ghost from_gives = { λ cause fault. fault ≡ StoreFault.Put cause };

    fn from(cause: PutRefusal) -> StoreFault {
        StoreFault::Put(cause)
    }
}

impl From<FlushFault> for StoreFault {
    ghost use Rattle.fl_store.specs.declared.fault.StoreFault.{StoreFault};

    ghost from_gives = { λ cause fault. fault ≡ StoreFault.Flush cause };

    fn from(cause: FlushFault) -> StoreFault {
        StoreFault::Flush(cause)
    }
}

impl From<ReadFault> for StoreFault {
    ghost use Rattle.fl_store.specs.declared.fault.StoreFault.{StoreFault};

    ghost from_gives = { λ cause fault. fault ≡ StoreFault.Read cause };

    fn from(cause: ReadFault) -> StoreFault {
        StoreFault::Read(cause)
    }
}
