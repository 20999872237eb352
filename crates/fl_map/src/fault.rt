// Why a map isn't drawn.
ghost use Rattle.std.specs.Prelude.{◌≡◌};

use fl_base::NoMemory;
use fl_flash::FlashFault;
use std::alloc::AllocFailed;

/// Why a map isn't drawn.
#[derive(Clone, Copy)]
pub(crate) enum MapFault {
    /// The flash failed.
    Flash(FlashFault),
    /// There is no memory.
    NoMemory,
}

impl From<FlashFault> for MapFault {
    ghost use Rattle.fl_map.specs.declared.fault.MapFault.{MapFault};

    ghost from_gives = { λ failed fault. fault ≡ MapFault.Flash failed };

    fn from(failed: FlashFault) -> MapFault {
        MapFault::Flash(failed)
    }
}

impl From<NoMemory> for MapFault {
    ghost use Rattle.fl_map.specs.declared.fault.MapFault.{MapFault};

    ghost from_gives = { λ failed fault. fault ≡ MapFault.NoMemory };

    fn from(_: NoMemory) -> MapFault {
        MapFault::NoMemory
    }
}

impl<T: Drop> From<AllocFailed<T>> for MapFault {
    ghost use Rattle.fl_map.specs.declared.fault.MapFault.{MapFault};

    ghost from_gives = { λ failed fault. fault ≡ MapFault.NoMemory };

    fn from(_: AllocFailed<T>) -> MapFault {
        MapFault::NoMemory
    }
}
