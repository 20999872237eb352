// What a check finds of a table.
use fl_base::NoMemory;
use fl_flash::FlashFault;
use fl_rules::Rule;

/// The rings of a table.
#[derive(Clone, Copy, Debug, PartialEq, Eq)]
pub enum RingName {
    Index,
    Data,
    Var,
    Log,
}

/// What a check finds of a table: the rows of its data ring, the kept pages and how many of these are void, or the first
/// rule that doesn't hold, with the page of the flash that breaks it first.
#[derive(Clone, Copy, Debug, PartialEq, Eq)]
pub enum Finding {
    Sound {
        rows: u64,
        pages: u32,
        voids: u32,
    },
    Fault {
        ring: RingName,
        page: u32,
        rule: Rule,
    },
}

/// Why a check finds nothing.
#[derive(Clone, Copy, Debug, PartialEq, Eq)]
pub enum CheckFault {
    /// The flash failed.
    Flash(FlashFault),
    /// There is no memory.
    NoMemory,
}

impl From<NoMemory> for CheckFault {
    ghost use Rattle.std.specs.Prelude.{◌≡◌};
    ghost use Rattle.fl_check.specs.declared.finding.CheckFault.{CheckFault};

    ghost from_gives = { λ fault e. e ≡ CheckFault.NoMemory };

    fn from(_: NoMemory) -> CheckFault {
        CheckFault::NoMemory
    }
}
