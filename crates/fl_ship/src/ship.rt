// The ship of records of a table between two media.
ghost use Rattle.std.specs.Prelude.{◌≡◌, ◌⊎◌, ◌≤◌, ℕ, true, List, IsTrue};
ghost use Rattle.fl_base.specs.Causes.{Rose};
ghost use Rattle.fl_image.specs.Header.{IsMade};
ghost use Rattle.fl_image.specs.Image.{OnlyLooksAt};
ghost use Rattle.fl_model.specs.Record.{Config as Configured};
ghost use Rattle.fl_model.specs.Table as model;
ghost use Rattle.fl_store.specs.MountEnds.{Keeps};
ghost use Rattle.fl_store.specs.Repaired.{AreRepaired, OthersAreRepaired};
ghost use Rattle.fl_words.specs.Medium.{IsImage};
ghost use Rattle.fl_ship.specs.Ends.{IsCopy, ShipEnds};
ghost use Rattle.fl_ship.specs.Fits.{AreImagesFor, CopyKeeps, StatusFits, is_refused};
ghost use Rattle.fl_ship.specs.Media.{bytes_of};
ghost use Rattle.fl_ship.specs.Over.{ShipJob, WritesLine};
ghost use Rattle.fl_ship.specs.Tables.{told_of};
ghost use Rattle.fl_ship.specs.declared.side.Side.{Side};
ghost use Rattle.fl_ship.specs.declared.status.ShipStatus.{ShipStatus};

use crate::ShipStatus;
use crate::copy::make_copy;
use crate::ready::{Ready, make_ready};
use crate::tables::ship_on;
use fl_base::{Name, Sink};
use fl_flash::Media;
use fl_store::Store;
use std::alloc::Global;

/// Puts the records of a table of the image on a medium that come after those of a copy's table, at most `count`, into that table,
/// flushes it, and writes how many they were. The copy is an image of the same configuration on a medium of its own, and is made
/// where that is empty. All tables of both are mounted before, the image's first: what a mount repairs is repaired, and the records
/// that only a table's log has become a page of the table. Where both tables have records and the image's has none with the copy's
/// last key, none is put: records between the two may be gone. A table with variable data or with a log isn't shipped.
pub fn ship_image<M: Media, C: Media, K: Sink>(
    alloc: Global,
    name: Name,
    count: u64,
    media: &mut M,
    copy: &mut C,
    out: &mut K,
) -> ShipStatus
    // Over an image that stands for tables, and a copy that does or is empty, the next records are put, and the copy is flushed. Both
    // media stand at the end for the tables that this leaves, but for an empty copy whose making failed.
    ensures ends { (config : Configured) (sources copies : List model.Table) → IsTrue (M.state media.old).tells → IsTrue (C.state copy.old).tells → IsMade config
        → IsImage config (M.state media.old).content sources → IsCopy config (C.state copy.old).content copies
        → ShipEnds config sources copies name count (told_of (M.state media.old) (M.state media.new) (C.state copy.old) (C.state copy.new) (K.written out.old) (K.written out.new))
        (bytes_of (M.state media.old) (M.state media.new) (C.state copy.old) (C.state copy.new)) result }

    // Whatever the other medium holds, one that stands for tables does so afterwards, and none of them is bad.
    ensures stands { (config : Configured) (tables : List model.Table) → IsTrue (M.state media.old).tells → IsMade config → IsImage config (M.state media.old).content tables
        → (now : List model.Table) × IsImage config (M.state media.new).content now }
    ensures copy_stands { (config : Configured) (copies : List model.Table) → IsTrue (M.state media.old).tells → IsTrue (C.state copy.old).tells → IsMade config → IsImage config (C.state copy.old).content copies
        → (now : List model.Table) × IsImage config (C.state copy.new).content now }
    ensures good { (config : Configured) (tables : List model.Table) (table : ℕ) → IsTrue (M.state media.old).tells → IsMade config → IsImage config (M.state media.old).content tables
        → result ≡ ShipStatus.BadImage Side.Source table → ⊥ }
    ensures good_copy { (config : Configured) (copies : List model.Table) (table : ℕ) → IsTrue (M.state media.old).tells → IsTrue (C.state copy.old).tells → IsMade config → IsCopy config (C.state copy.old).content copies
        → result ≡ ShipStatus.BadImage Side.Copy table → ⊥ }

    // Each page of the image, and of the copy's other tables, stands, or was torn and is void now, or is blank now; or it was blank,
    // and has what only a log had, where its medium doesn't fail.
    ensures repairs { (config : Configured) (sources : List model.Table) → IsTrue (M.state media.old).tells → IsMade config → IsImage config (M.state media.old).content sources
        → (result ≡ ShipStatus.Device Side.Source → ⊥) → AreRepaired config (M.state media.old).content (M.state media.new).content }
    ensures others { (config : Configured) (copies : List model.Table) → IsTrue (M.state media.old).tells → IsTrue (C.state copy.old).tells → IsMade config → IsImage config (C.state copy.old).content copies
        → (result ≡ ShipStatus.Device Side.Copy → ⊥) → OthersAreRepaired config name (C.state copy.old).content (C.state copy.new).content }

    // Whatever bytes the media hold, and whether they tell them: the tables of both are mounted, up to one that is refused. Then the source is
    // only read, and of the copy only pages in the rings of the named table change.
    ensures over { ShipJob name count (M.state media.old) (M.state media.new) (C.state copy.old) (C.state copy.new) result }

    // Statuses have their causes, over any bytes that both media tell; a device's and the sink's over all.
    ensures fits { IsTrue (M.state media.old).tells → IsTrue (C.state copy.old).tells → StatusFits (M.state media.old).content (C.state copy.old).content name result }
    ensures device { result ≡ ShipStatus.Device Side.Source → Rose (M.state media.old).faults (M.state media.new).faults }
    ensures copy_device { result ≡ ShipStatus.Device Side.Copy → Rose (C.state copy.old).faults (C.state copy.new).faults }
    ensures write { result ≡ ShipStatus.OutWrite → Rose (K.faults out.old) (K.faults out.new) }

    // Over any bytes it writes how many records it tells as shipped, as far as the bytes of the output are told, or nothing.
    ensures line { WritesLine count out.old out.new (K.written out.old) (K.written out.new) result }

    // Neither medium changes where they aren't images of one configuration that has the table, and it is shipped.
    ensures changes { IsTrue (M.state media.old).tells → IsTrue (C.state copy.old).tells → AreImagesFor (M.state media.old).content (C.state copy.old).content name true
        ⊎ (((M.state media.new).content ≡ (M.state media.old).content) × ((C.state copy.new).content ≡ (C.state copy.old).content)) }
    ensures untouched { is_refused result ≡ true → OnlyLooksAt (M.state media.old) (M.state media.new) × OnlyLooksAt (C.state copy.old) (C.state copy.new) × (out.new ≡ out.old) }
    ensures later { K.faults out.old ≤ K.faults out.new }
    ensures keeps { Keeps (M.state media.old) (M.state media.new) }
    ensures copy_keeps { CopyKeeps (M.state media.old).content (C.state copy.old) (C.state copy.new) }
{
    let Ready {
        config,
        source,
        copy: layout,
        mut rooms,
        at,
    } = match make_ready(alloc, name, media, copy) {
        Ok(ready) => ready,
        Err(status) => return status,
    };
    if let Err(status) = make_copy(&config, copy) {
        return status;
    }
    // Its call tells the proof how few tables there are.
    let _tables = config.tables();
    let Store {
        flash: mut from,
        tables: mut sources,
    } = Store::over(media, &config, false, source);
    let Store {
        flash: mut onto,
        tables: mut copies,
    } = Store::over(copy, &config, false, layout);
    let status = ship_on(
        &mut sources,
        &mut from,
        &mut copies,
        &mut onto,
        at,
        count,
        &mut rooms,
        out,
    );
    let _copy = onto.into_media();
    let _media = from.into_media();
    status
}
