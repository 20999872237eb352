// The ship of records between two images.
ghost use Rattle.fl_command.specs.Ships.{ShipEndsAs, sides_of};

use crate::{Exit, ShipJob};
use fl_base::Sink;
use fl_flash::Media;
use fl_ship::ship_image;
use std::alloc::Global;

/// Puts the records of the table with the name that come after those of the copy into the copy, at most so many, and writes how many
/// they were.
pub fn ship<M: Media, C: Media, K: Sink>(
    alloc: Global,
    job: ShipJob,
    media: &mut M,
    copy: &mut C,
    out: &mut K,
) -> Exit
    // All that `ship_image` promises, for this table and this count.
    ensures { ShipEndsAs job (sides_of (M.state media.old) (C.state copy.old) out.old (K.written out.old) (K.faults out.old))
        (sides_of (M.state media.new) (C.state copy.new) out.new (K.written out.new) (K.faults out.new)) result }
{
    Exit::Ship(ship_image(alloc, job.name, job.count, media, copy, out))
}
