// The ship of a table between two flashes.
ghost use Rattle.std.specs.Prelude.{◌≡◌, ◌≤◌, ◌<◌, ◌*◌, ℕ, false, true, None, Some, IsTrue, IfErr, IfOk, Err, List, length, sum_by};
ghost use Rattle.fl_base.specs.Causes.{Rose};
ghost use Rattle.fl_cursor.specs.Cursor.{MayBeBad};
ghost use Rattle.fl_store.specs.Store.{at_rest};
ghost use Rattle.fl_flash.specs.Flash.{Goes, page_at};
ghost use Rattle.fl_store.specs.Repaired.{IsOfOther};
ghost use Rattle.fl_store.specs.Works.{Works};
ghost use Rattle.fl_model.specs.Record.{Plan, blocks_of};
ghost use Rattle.fl_model.specs.Table as model;
ghost use Rattle.fl_frame.specs.Contents.{OnlyReads, contents_of};
ghost use Rattle.fl_page.specs.declared.fault.BadPage.{BadPage};
ghost use Rattle.fl_page.specs.declared.fault.ReadFault.{ReadFault};
ghost use Rattle.fl_frame.specs.Device.{SameDevice};
ghost use Rattle.fl_rlc.specs.Logged.{Rests};
ghost use Rattle.fl_rlc.specs.Table as logged;
ghost use Rattle.fl_rlc.specs.Table.{table_in, IsSamePlan, OutsideStands};
ghost use Rattle.fl_table.specs.Look.{last_key_in, layout_in};
ghost use Rattle.fl_table.specs.Memory.{is_running, LiesOn};
ghost use Rattle.fl_table.specs.Standing.{Stands};
ghost use Rattle.fl_table.specs.declared.faults.PutRefusal.{PutRefusal};
ghost use Rattle.fl_store.specs.Repaired.{IsLeft};
ghost use Rattle.fl_store.specs.Tables.{IsNamed, LieOn, TablesStand};
ghost use Rattle.fl_frame.specs.Causes.{IsUnarmed};
ghost use Rattle.fl_store.specs.declared.tables.Entry.{Entry};
ghost use Rattle.fl_ship.specs.Ends.{TablesShip};
ghost use Rattle.fl_ship.specs.Over.{ShipsBetween, WritesLine};
ghost use Rattle.fl_ship.specs.Rows.{HasFewNumbers};
ghost use Rattle.fl_ship.specs.Tables.{HaveOneForm, IsOfTables, ShipLeaves, StopCausedBy, TellsShipped, standing_on, told_of};
ghost use Rattle.fl_ship.specs.declared.fault.ShipFault.{ShipFault};
ghost use Rattle.fl_ship.specs.declared.side.Side.{Side};
ghost use Rattle.fl_ship.specs.declared.status.ShipStatus.{ShipStatus};
ghost use Rattle.fl_ship.specs.declared.stop.Stop.{Stop};

use crate::missing::{keys_above, look_for_gap};
use crate::report::tell_shipped;
use crate::rooms::Rooms;
use crate::rows::{flush_copy, ship_rows};
use crate::status::{mount_status, stop_status};
use crate::stop::Stop;
use crate::{ShipStatus, Side};
use fl_base::Sink;
use fl_flash::Flash;
use fl_store::{Cursor, LoggedTable, Table, Tables};

/// Ships the records of a table that come after those of its copy, at most `count`, and tells how many they were. Both are mounted.
fn ship_table<A: Flash, B: Flash>(
    source: &Table,
    from: &mut A,
    copy: &mut LoggedTable,
    onto: &mut B,
    count: u64,
    rooms: &mut Rooms,
) -> Result<u64, Stop>
    requires running { is_running source.now ≡ true }
    requires lies { LiesOn source.now (A.state from.old) }
    requires copy_running { logged.is_running copy.old ≡ true }
    requires copy_lies { logged.LiesOn copy.old (B.state onto.old) }
    requires form { layout_in source.now ≡ layout_in (table_in copy.old) }
    requires no_blobs { (layout_in (table_in copy.old)).blobs ≡ false }
    requires rows { length rooms.old.rows.bytes ≡ (A.state from.old).geometry.page }
    requires index { length rooms.old.index.bytes ≡ (A.state from.old).geometry.page }
    ensures ships { (source_first first : ℕ) (source_plan plan : Plan) (s t : model.Table) → IsTrue (A.state from.old).media.tells → Stands source.now (A.state from.old) source_first source_plan s
        → Works copy.old (B.state onto.old) first plan t → ShipLeaves first plan s t count (B.state onto.new) result }
    // Whatever the source is, the copy's flash stands for some table afterwards.
    ensures copy_stands { (first : ℕ) (plan : Plan) (t : model.Table) → Works copy.old (B.state onto.old) first plan t → (after : model.Table) × Rests (B.state onto.new) first plan after }
    ensures none_bad { (first : ℕ) (plan : Plan) (s : model.Table) → IsTrue (A.state from.old).media.tells → Stands source.now (A.state from.old) first plan s
        → (bad : BadPage) → result ≡ Err (Stop.Ship (ShipFault.Read (ReadFault.BadPage bad))) → ⊥ }
    ensures cause { IfErr result (StopCausedBy (A.state from.old) (A.state from.new) (B.state onto.old) (B.state onto.new)) }
    ensures gap { (last oldest : ℕ) → result ≡ Err (Stop.Gap last oldest) → (last_key_in (table_in copy.old) ≡ Some last) × (last_key_in source.now ≡ None → ⊥) }
    ensures gap_leaves { (last oldest : ℕ) → result ≡ Err (Stop.Gap last oldest) → B.state onto.new ≡ B.state onto.old }
    ensures bad_page { (bad : BadPage) → result ≡ Err (Stop.Ship (ShipFault.Read (ReadFault.BadPage bad))) → MayBeBad source.now (contents_of (A.state from.old)) bad }
    ensures numbers { result ≡ Err (Stop.Ship (ShipFault.Put PutRefusal.Spent)) → HasFewNumbers copy.old count }
    ensures few { IfOk result (λ shipped. shipped ≤ count) }
    ensures reads_only { OnlyReads (A.state from.old) (A.state from.new) }
    ensures goes { Goes (B.state onto.old) (B.state onto.new) }
    ensures outside { IsTrue (B.state onto.old).media.tells → OutsideStands copy.old (page_at (B.state onto.old)) (page_at (B.state onto.new)) }
    ensures same { IsSamePlan copy.old copy.new }
    ensures lies { logged.LiesOn copy.new (B.state onto.new) }
{
    let last = copy.table().last_key();
    look_for_gap(source, last, from, rooms)?;
    let Some(range) = keys_above(last) else {
        flush_copy(copy, onto)?;
        return Ok(0);
    };
    let mut cursor = Cursor::begin(source, range, None, &mut rooms.rows, &mut rooms.index);
    let shipped = ship_rows(&mut cursor, from, copy, onto, count);
    cursor.park();
    Ok(shipped?)
}

/// Tells how many records were shipped.
fn told<K: Sink>(shipped: u64, out: &mut K) -> ShipStatus
    ensures tells { TellsShipped shipped (K.written out.old) (K.written out.new) (K.faults out.old) (K.faults out.new) result }
    ensures later { K.faults out.old ≤ K.faults out.new }
{
    match tell_shipped(shipped, out) {
        Ok(()) => ShipStatus::Done { shipped },
        Err(_) => ShipStatus::OutWrite,
    }
}

/// Mounts the tables of both, and ships the one at this place.
pub(crate) fn ship_on<A: Flash, B: Flash, K: Sink>(
    sources: &mut Tables,
    from: &mut A,
    copies: &mut Tables,
    onto: &mut B,
    at: usize,
    count: u64,
    rooms: &mut Rooms,
    out: &mut K,
) -> ShipStatus
    requires lie { LieOn sources.old.entries.items (A.state from.old) }
    requires copies_lie { LieOn copies.old.entries.items (B.state onto.old) }
    requires at { at < length sources.old.entries.items }
    requires few { length sources.old.entries.items ≤ 4 }
    requires as_many { length copies.old.entries.items ≡ length sources.old.entries.items }
    requires form { HaveOneForm sources.old.entries.items copies.old.entries.items at }
    requires rows { length rooms.old.rows.bytes ≡ (A.state from.old).geometry.page }
    requires index { length rooms.old.index.bytes ≡ (A.state from.old).geometry.page }
    requires pages { (B.state onto.old).geometry.page ≡ (A.state from.old).geometry.page }
    requires unarmed { IsUnarmed (A.state from.old) }
    requires copy_unarmed { IsUnarmed (B.state onto.old) }
    ensures ends { (plans : List Plan) (ts cs : List model.Table) (name : List ℕ) → IsTrue (A.state from.old).media.tells → IsTrue (B.state onto.old).media.tells → (A.state from.old).is_on ≡ true → (B.state onto.old).is_on ≡ true
        → SameDevice (A.state from.old) at_rest → SameDevice (B.state onto.old) at_rest → TablesStand (A.state from.old) (λ i. false) plans sources.old.entries.items ts → TablesStand (B.state onto.old) (λ i. false) plans copies.old.entries.items cs
        → IsNamed sources.old.entries.items name at → IsNamed copies.old.entries.items name at
        → TablesShip plans ts cs name count (told_of (A.state from.old).media (A.state from.new).media (B.state onto.old).media (B.state onto.new).media (K.written out.old) (K.written out.new))
        (standing_on plans (A.state from.new) sources.new.entries.items (B.state onto.new) copies.new.entries.items) result }
    // Nothing of the source's pages changes but what a mount repairs, nor of the pages of the copy's other tables.
    ensures repairs { (plans : List Plan) (ts : List model.Table) (name : List ℕ) → IsTrue (A.state from.old).media.tells → (A.state from.old).is_on ≡ true → SameDevice (A.state from.old) at_rest
        → TablesStand (A.state from.old) (λ i. false) plans sources.old.entries.items ts → IsNamed sources.old.entries.items name at → (result ≡ ShipStatus.Device Side.Source → ⊥)
        → (page : ℕ) → page < sum_by blocks_of plans * (A.state from.old).geometry.block → IsLeft plans (A.state from.old).geometry page (page_at (A.state from.old) page) (page_at (A.state from.new) page) }
    ensures others { (plans : List Plan) (cs : List model.Table) (name : List ℕ) → IsTrue (B.state onto.old).media.tells → (B.state onto.old).is_on ≡ true → SameDevice (B.state onto.old) at_rest
        → TablesStand (B.state onto.old) (λ i. false) plans copies.old.entries.items cs → IsNamed copies.old.entries.items name at → (result ≡ ShipStatus.Device Side.Copy → ⊥)
        → (page : ℕ) → IsOfOther plans name (B.state onto.old).geometry.block page → IsLeft plans (B.state onto.old).geometry page (page_at (B.state onto.old) page) (page_at (B.state onto.new) page) }
    // Whatever lies on the other flash, one that stands for tables does so afterwards, and none of them is bad.
    ensures stands { (plans : List Plan) (ts : List model.Table) (name : List ℕ) → IsTrue (A.state from.old).media.tells → (A.state from.old).is_on ≡ true → SameDevice (A.state from.old) at_rest
        → TablesStand (A.state from.old) (λ i. false) plans sources.old.entries.items ts → IsNamed sources.old.entries.items name at
        → (now : List model.Table) × TablesStand (A.state from.new) (λ i. false) plans sources.new.entries.items now }
    ensures copy_stands { (plans : List Plan) (cs : List model.Table) (name : List ℕ) → IsTrue (B.state onto.old).media.tells → (B.state onto.old).is_on ≡ true → SameDevice (B.state onto.old) at_rest
        → TablesStand (B.state onto.old) (λ i. false) plans copies.old.entries.items cs → IsNamed copies.old.entries.items name at
        → (now : List model.Table) × TablesStand (B.state onto.new) (λ i. false) plans copies.new.entries.items now }
    ensures good { (plans : List Plan) (ts : List model.Table) (name : List ℕ) (table : ℕ) → IsTrue (A.state from.old).media.tells → (A.state from.old).is_on ≡ true → SameDevice (A.state from.old) at_rest
        → TablesStand (A.state from.old) (λ i. false) plans sources.old.entries.items ts → IsNamed sources.old.entries.items name at → result ≡ ShipStatus.BadImage Side.Source table → ⊥ }
    ensures good_copy { (plans : List Plan) (cs : List model.Table) (name : List ℕ) (table : ℕ) → IsTrue (B.state onto.old).media.tells → (B.state onto.old).is_on ≡ true → SameDevice (B.state onto.old) at_rest
        → TablesStand (B.state onto.old) (λ i. false) plans copies.old.entries.items cs → IsNamed copies.old.entries.items name at → result ≡ ShipStatus.BadImage Side.Copy table → ⊥ }
    // Whatever bytes both hold, and whether they are told.
    ensures over { ShipsBetween count result at sources.old.entries.items (A.state from.old) (A.state from.new) copies.old.entries.items (B.state onto.old) (B.state onto.new) }
    ensures statuses { IsOfTables result }
    ensures device { result ≡ ShipStatus.Device Side.Source → Rose (A.state from.old).media.faults (A.state from.new).media.faults }
    ensures copy_device { result ≡ ShipStatus.Device Side.Copy → Rose (B.state onto.old).media.faults (B.state onto.new).media.faults }
    ensures write { result ≡ ShipStatus.OutWrite → Rose (K.faults out.old) (K.faults out.new) }
    ensures line { WritesLine count out.old out.new (K.written out.old) (K.written out.new) result }
    ensures bad { (side : Side) (table : ℕ) → result ≡ ShipStatus.BadImage side table → table < length sources.old.entries.items }
    ensures later { K.faults out.old ≤ K.faults out.new }
    ensures goes { Goes (A.state from.old) (A.state from.new) }
    ensures copy_goes { Goes (B.state onto.old) (B.state onto.new) }
{
    if let Err(bad) = sources.mount(from, &mut rooms.rows) {
        return mount_status(Side::Source, bad);
    }
    if let Err(bad) = copies.mount(onto, &mut rooms.rows) {
        return mount_status(Side::Copy, bad);
    }
    let source = sources.entries[at].table.table();
    let copy = &mut copies.entries[at].table;
    match ship_table(source, from, copy, onto, count, rooms) {
        Ok(shipped) => told(shipped, out),
        Err(stop) => stop_status(stop, at),
    }
}
