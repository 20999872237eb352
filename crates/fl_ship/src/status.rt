// How a ship ends.
ghost use Rattle.std.specs.Prelude.{◌≡◌, ◌<◌};
ghost use Rattle.fl_ship.specs.Number.{number_of};
ghost use Rattle.fl_ship.specs.Tables.{mount_status, stop_status};

use crate::stop::Stop;
use crate::{ShipFault, Side};
use fl_page::ReadFault;
use fl_store::BadMount;
use fl_table::{FlushFault, MountFault, PutRefusal};

/// How a ship ends.
#[derive(Clone, Copy, Debug, PartialEq, Eq)]
pub enum ShipStatus {
    /// So many records were put into the copy, which is flushed, and that was told.
    Done { shipped: u64 },
    /// The sink failed. The records were put into the copy, which is flushed.
    OutWrite,
    /// There is no memory.
    NoMemory,
    /// The source is no image; or the copy isn't empty and isn't an image of the source's configuration.
    NotImage { side: Side },
    /// A medium failed.
    Device { side: Side },
    /// A page of this table, counted from 0, was refused.
    BadImage { side: Side, table: u32 },
    /// No table of the source has the name.
    NoTable,
    /// The source's table has records, but none with the copy's last key: its first key is `oldest`.
    Gap { last: u64, oldest: u64 },
    /// The table has variable data or a log.
    OtherForm,
    /// The copy's table has no page number left. The records before were put, and are not flushed: those that had no page yet are
    /// lost.
    Spent,
}

impl ShipStatus {
    /// The number with which the program ends.
    pub fn number(self) -> u8
        ensures { result ≡ number_of self }
    {
        match self {
            ShipStatus::Done { .. } => 0,
            ShipStatus::OutWrite => 4,
            ShipStatus::NoMemory => 9,
            ShipStatus::NotImage { .. } => 11,
            ShipStatus::Device { .. } => 12,
            ShipStatus::BadImage { .. } => 13,
            ShipStatus::NoTable => 14,
            ShipStatus::Gap { .. } => 17,
            ShipStatus::OtherForm => 18,
            ShipStatus::Spent => 19,
        }
    }
}

/// The status of a ship that ends since one of an image's tables, four at most, can't be mounted.
pub(crate) fn mount_status(side: Side, bad: BadMount) -> ShipStatus
    requires { bad.at < 4 }
    ensures { result ≡ mount_status side bad.fault bad.at }
{
    match bad.fault {
        MountFault::Flash(_) => ShipStatus::Device { side },
        _ => ShipStatus::BadImage {
            side,
            table: bad.at as u32,
        },
    }
}

/// The status of a ship of the table with this number that isn't done.
pub(crate) fn stop_status(stop: Stop, at: usize) -> ShipStatus
    requires { at < 4 }
    ensures { result ≡ stop_status stop at }
{
    match stop {
        Stop::Gap { last, oldest } => ShipStatus::Gap { last, oldest },
        Stop::Ship(ShipFault::Read(ReadFault::Flash(_))) => ShipStatus::Device {
            side: Side::Source,
        },
        Stop::Ship(ShipFault::Read(ReadFault::BadPage(_))) => ShipStatus::BadImage {
            side: Side::Source,
            table: at as u32,
        },
        Stop::Ship(ShipFault::Put(PutRefusal::Flash(_))) => ShipStatus::Device { side: Side::Copy },
        Stop::Ship(ShipFault::Put(_)) => ShipStatus::Spent,
        Stop::Ship(ShipFault::Flush(FlushFault::Flash(_))) => ShipStatus::Device {
            side: Side::Copy,
        },
        Stop::Ship(ShipFault::Flush(FlushFault::Stopped)) => ShipStatus::NoMemory,
    }
}
