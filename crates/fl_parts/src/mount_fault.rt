// Why a mount fails.
use fl_flash::FlashFault;
use fl_page::BadPage;
use fl_ring::RingFault;

/// Why a table isn't mounted: the flash failed, or what stands on it was not left by a table.
#[derive(Clone, Copy, Debug, PartialEq, Eq)]
pub enum MountFault {
    Flash(FlashFault),
    Ring(RingFault),
    /// A committed page has another number or no count that a page has. Where index entries are full also: an index page lists a data
    /// page that one before it may list, or a page of which an entry tells rows isn't committed.
    BadPage(BadPage),
    /// The first key that isn't above the one before it.
    BadKeys { page: u32, last: u64, first: u64 },
    /// The index lists pages from the next number on.
    BadIndex { end: u32, next: u32 },
    /// A blob names a page from the next number on.
    BadBlob { page: u32, next: u32 },
    /// The index entry of a kept page tells more rows than a page holds.
    BadEntry { page: u32, count: u32, limit: u32 },
}

impl From<FlashFault> for MountFault {
    ghost use Rattle.std.specs.Prelude.{◌≡◌};
    ghost use Rattle.fl_parts.specs.declared.mount_fault.MountFault.{MountFault};

    ghost from_gives = { λ fault refusal. refusal ≡ MountFault.Flash fault };

    fn from(fault: FlashFault) -> MountFault {
        MountFault::Flash(fault)
    }
}

impl From<RingFault> for MountFault {
    ghost use Rattle.std.specs.Prelude.{◌≡◌};
    ghost use Rattle.fl_parts.specs.Faults.{of_ring};

    ghost from_gives = { λ fault refusal. refusal ≡ of_ring fault };

    /// A fault of the flash is one here too.
    fn from(fault: RingFault) -> MountFault {
        match fault {
            RingFault::Flash(fault) => MountFault::Flash(fault),
            fault => MountFault::Ring(fault),
        }
    }
}
