// Why the ship of a table isn't done.
ghost use Rattle.std.specs.Prelude.{◌≡◌};

use crate::ShipFault;
use fl_page::ReadFault;

/// Why the ship of a table isn't done.
#[derive(Clone, Copy, Debug)]
pub(crate) enum Stop {
    /// The source's table has records, from this key on, but none with the copy's last key.
    Gap { last: u64, oldest: u64 },
    /// A page wasn't read, or the rows weren't shipped to the end.
    Ship(ShipFault),
}

impl From<ReadFault> for Stop {
    ghost use Rattle.fl_ship.specs.declared.fault.ShipFault.{ShipFault};
    ghost use Rattle.fl_ship.specs.declared.stop.Stop.{Stop};

    ghost from_gives = { λ failed stop. stop ≡ Stop.Ship (ShipFault.Read failed) };

    fn from(failed: ReadFault) -> Stop {
        Stop::Ship(ShipFault::Read(failed))
    }
}

impl From<ShipFault> for Stop {
    ghost use Rattle.fl_ship.specs.declared.stop.Stop.{Stop};

    ghost from_gives = { λ fault stop. stop ≡ Stop.Ship fault };

    fn from(fault: ShipFault) -> Stop {
        Stop::Ship(fault)
    }
}
