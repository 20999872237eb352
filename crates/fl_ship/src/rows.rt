// Rows that are put into the table of a copy.
ghost use Rattle.std.specs.Prelude.{◌≡◌, ◌≤◌, ◌<◌, ◌+◌, ℕ, ℤ, Bool, true, false, not, None, Some, IsTrue, IfErr, IfOk, OnOk, Err, is_ok, slice_index, List, length, take, drop};
ghost use Rattle.fl_flash.specs.Flash.{Goes, page_at};
ghost use Rattle.fl_store.specs.Works.{Works};
ghost use Rattle.fl_model.specs.Query.{is_above};
ghost use Rattle.fl_model.specs.Record.{Plan};
ghost use Rattle.fl_model.specs.Table as model;
ghost use Rattle.fl_model.specs.Table.{RingName, spent_from, table_seals};
ghost use Rattle.fl_model.specs.Work.{Device};
ghost use Rattle.fl_ops.specs.Columns.{record_of, records_of};
ghost use Rattle.fl_ops.specs.Inputs.{Continues};
ghost use Rattle.fl_frame.specs.Contents.{contents_of, OnlyReads};
ghost use Rattle.fl_page.specs.declared.fault.BadPage.{BadPage};
ghost use Rattle.fl_page.specs.declared.fault.ReadFault.{ReadFault};
ghost use Rattle.fl_frame.specs.Watched.{IsWatched};
ghost use Rattle.fl_rlc.specs.Logged.{Stands};
ghost use Rattle.fl_rlc.specs.Outcomes.{PutEnds};
ghost use Rattle.fl_rlc.specs.Refusal.{put_refusal, RefusedSame};
ghost use Rattle.fl_rlc.specs.Table.{is_running, table_in, IsSamePlan, LiesOn, OutsideStands};
ghost use Rattle.fl_schema.specs.Schema.{layout_of_row, row_of};
ghost use Rattle.fl_table.specs.Causes.{put_breaks};
ghost use Rattle.fl_table.specs.Look.{last_key_in, layout_in};
ghost use Rattle.fl_parts.specs.Failing.{BySeals};
ghost use Rattle.fl_table.specs.declared.faults.PutRefusal.{PutRefusal};
ghost use Rattle.fl_ship.specs.Rows.{goes_on, next_number, AreTaken, FlushCausedBy, FlushesCopy, HasFewNumbers, HaveRisen, PutCausedBy, PutsWork, RowsPut, RowsShip, RowsWork, ShipCausedBy, ShipsWork, WorksOn};
ghost use Rattle.fl_ship.specs.declared.fault.ShipFault.{ShipFault};

use crate::ShipFault;
use fl_flash::Flash;
use fl_ops::values_of;
use fl_page::{RowHere, Rows};
use fl_schema::RowRef;
use fl_store::LoggedTable;
use fl_table::PutRefusal;

/// No byte is above 255: so each row that is read from bytes fits its layout.
fn bytes_are_small(bytes: &[u8])
    ensures { (k : ℕ) → slice_index bytes.now k < 256 }
{}

/// Puts a row without a blob into the table of a copy.
fn put_row<B: Flash>(row: &RowRef<'_>, to: &mut LoggedTable, onto: &mut B) -> Result<(), PutRefusal>
    requires form { layout_of_row row.now ≡ layout_in (table_in to.old) }
    requires no_blobs { (layout_in (table_in to.old)).blobs ≡ false }
    requires running { is_running to.old ≡ true }
    requires lies { LiesOn to.old (B.state onto.old) }
    requires above { (last : ℕ) → last_key_in (table_in to.old) ≡ Some last → last < (row_of row.now).key }
    ensures ends { (first : ℕ) (plan : Plan) (t : model.Table) (rose : Bool) (device : Device) → IsWatched (B.state onto.old) (B.state onto.new) rose device → Stands to.old (B.state onto.old) first plan t
        → PutEnds first plan (record_of (row_of row.now)) t rose device result to.new (B.state onto.old) (B.state onto.new) }
    ensures cause { IfErr result (PutCausedBy (B.state onto.old) (B.state onto.new)) }
    ensures refused { IfErr result (λ refusal. RefusedSame to.old (B.state onto.old) refusal to.new (B.state onto.new)) }
    ensures spent { result ≡ Err PutRefusal.Spent → put_refusal to.old (row_of row.now).key (row_of row.now).values None ≡ Some PutRefusal.Spent }
    ensures spent_ring { result ≡ Err PutRefusal.Spent → (ring : RingName) × (spent_from ≤ next_number to.old ring) }
    ensures numbers { OnOk result (HaveRisen to.old 1 to.new) }
    ensures last { OnOk result (last_key_in (table_in to.new) ≡ Some (row_of row.now).key) }
    ensures running { is_running to.new ≡ not (put_breaks result) }
    ensures power { OnOk result ((B.state onto.old).is_on ≡ true → (B.state onto.new).is_on ≡ true) }
    ensures goes { Goes (B.state onto.old) (B.state onto.new) }
    ensures outside { IsTrue (B.state onto.old).media.tells → OutsideStands to.old (page_at (B.state onto.old)) (page_at (B.state onto.new)) }
    ensures same { IsSamePlan to.old to.new }
    ensures lies { LiesOn to.new (B.state onto.new) }
{
    bytes_are_small(row.bytes());
    let columns = to.table().columns();
    let values = values_of(row, columns);
    to.put(onto, row.key(), values.as_slice(), None)
}

/// Puts the rows that are left, at most `count`, and tells how many they were.
fn put_rows<A: Flash, B: Flash, R: Rows<A>>(
    rows: &mut R,
    from: &mut A,
    to: &mut LoggedTable,
    onto: &mut B,
    count: u64,
) -> Result<u64, ShipFault>
    requires ready { R.ready rows.old (contents_of (A.state from.old)) }
    requires form { R.schema rows.old ≡ layout_in (table_in to.old) }
    requires no_blobs { (layout_in (table_in to.old)).blobs ≡ false }
    requires running { is_running to.old ≡ true }
    requires lies { LiesOn to.old (B.state onto.old) }
    requires above { (last key : ℕ) → last_key_in (table_in to.old) ≡ Some last → is_above (R.above rows.old) key ≡ true → last < key }
    ensures puts { (first : ℕ) (plan : Plan) (t : model.Table) → Works to.old (B.state onto.old) first plan t
        → RowsPut first plan t (R.told rows.old (contents_of (A.state from.old))) (take count (records_of (R.left rows.old (contents_of (A.state from.old))))) to.new (B.state onto.new) result }
    ensures cut { (first : ℕ) (plan : Plan) (t : model.Table) (rose : Bool) (device : Device) → IsWatched (B.state onto.old) (B.state onto.new) rose device → Stands to.old (B.state onto.old) first plan t
        → RowsWork first plan (R.told rows.old (contents_of (A.state from.old))) (take count (records_of (R.left rows.old (contents_of (A.state from.old))))) (PutsWork (AreTaken (R.told rows.old (contents_of (A.state from.old))) count (R.left rows.old (contents_of (A.state from.old))) (R.left rows.new (contents_of (A.state from.old)))) plan rose device t result) to.new (B.state onto.new) result }
    ensures none_bad { R.told rows.old (contents_of (A.state from.old)) → (bad : BadPage) → result ≡ Err (ShipFault.Read (ReadFault.BadPage bad)) → ⊥ }
    ensures number { R.told rows.old (contents_of (A.state from.old)) → IfOk result (λ shipped. shipped ≡ length (take count (R.left rows.old (contents_of (A.state from.old))))) }
    ensures cause { IfErr result (ShipCausedBy (A.state from.old) (A.state from.new) (B.state onto.old) (B.state onto.new)) }
    ensures bad_page { (bad : BadPage) → result ≡ Err (ShipFault.Read (ReadFault.BadPage bad)) → R.passes rows.old (contents_of (A.state from.old)) bad }
    ensures spent { result ≡ Err (ShipFault.Put PutRefusal.Spent) → (key : ℕ) × (values : List ℤ) × (put_refusal to.new key values None ≡ Some PutRefusal.Spent) }
    ensures numbers { result ≡ Err (ShipFault.Put PutRefusal.Spent) → HasFewNumbers to.old count }
    ensures few { IfOk result (λ shipped. shipped ≤ count) }
    ensures running { is_running to.new ≡ goes_on result }
    ensures power { OnOk result ((B.state onto.old).is_on ≡ true → (B.state onto.new).is_on ≡ true) }
    ensures rows { Continues R.names R.schema R.above R.ready R.told R.passes (contents_of (A.state from.old)) rows.old rows.new }
    ensures left { R.told rows.old (contents_of (A.state from.old)) → IfOk result (λ shipped. R.left rows.new (contents_of (A.state from.old)) ≡ drop shipped (R.left rows.old (contents_of (A.state from.old)))) }
    ensures unread { R.told rows.old (contents_of (A.state from.old)) → (fault : ReadFault) → result ≡ Err (ShipFault.Read fault)
        → (n : ℕ) × (n < count) × (R.left rows.new (contents_of (A.state from.old)) ≡ drop n (R.left rows.old (contents_of (A.state from.old)))) }
    ensures above { OnOk result ((last key : ℕ) → last_key_in (table_in to.new) ≡ Some last → is_above (R.above rows.new) key ≡ true → last < key) }
    ensures reads { R.told rows.old (contents_of (A.state from.old)) → (A.state from.new).work.reads ≤ (A.state from.old).work.reads + R.most rows.old (contents_of (A.state from.old)) }
    ensures reads_only { OnlyReads (A.state from.old) (A.state from.new) }
    ensures goes { Goes (B.state onto.old) (B.state onto.new) }
    ensures outside { IsTrue (B.state onto.old).media.tells → OutsideStands to.old (page_at (B.state onto.old)) (page_at (B.state onto.new)) }
    ensures same { IsSamePlan to.old to.new }
    ensures lies { LiesOn to.new (B.state onto.new) }
{
    'puts: for shipped in 0..count {
        if !rows.step(from)? {
            return Ok(shipped);
        }
        put_row(&rows.row(), to, onto)?;
    }
    Ok(count)
}

/// Flushes the table of a copy.
pub(crate) fn flush_copy<B: Flash>(to: &mut LoggedTable, onto: &mut B) -> Result<(), ShipFault>
    requires running { is_running to.old ≡ true }
    requires lies { LiesOn to.old (B.state onto.old) }
    ensures flushes { (first : ℕ) (plan : Plan) (t : model.Table) → Works to.old (B.state onto.old) first plan t → FlushesCopy first plan t to.new (B.state onto.new) result }
    ensures cut { (first : ℕ) (plan : Plan) (t : model.Table) (rose : Bool) (device : Device) → IsWatched (B.state onto.old) (B.state onto.new) rose device → Stands to.old (B.state onto.old) first plan t
        → WorksOn first plan (λ now. BySeals plan (table_seals plan t) t rose device now) to.new (B.state onto.new) result }
    ensures cause { IfErr result (FlushCausedBy (B.state onto.old) (B.state onto.new)) }
    ensures last { last_key_in (table_in to.new) ≡ last_key_in (table_in to.old) }
    ensures running { is_running to.new ≡ is_ok result }
    ensures goes { Goes (B.state onto.old) (B.state onto.new) }
    ensures outside { IsTrue (B.state onto.old).media.tells → OutsideStands to.old (page_at (B.state onto.old)) (page_at (B.state onto.new)) }
    ensures same { IsSamePlan to.old to.new }
    ensures lies { LiesOn to.new (B.state onto.new) }
{
    to.flush(onto)?;
    Ok(())
}

/// Puts the rows that are left, at most `count`, into the table of a copy in their order, flushes it, and tells how many they were.
/// The rows have the form of the copy's and no blobs, and their keys are above its last one.
pub fn ship_rows<A: Flash, B: Flash, R: Rows<A>>(
    rows: &mut R,
    from: &mut A,
    to: &mut LoggedTable,
    onto: &mut B,
    count: u64,
) -> Result<u64, ShipFault>
    requires ready { R.ready rows.old (contents_of (A.state from.old)) }
    requires form { R.schema rows.old ≡ layout_in (table_in to.old) }
    requires no_blobs { (layout_in (table_in to.old)).blobs ≡ false }
    requires running { is_running to.old ≡ true }
    requires lies { LiesOn to.old (B.state onto.old) }
    requires above { (last key : ℕ) → last_key_in (table_in to.old) ≡ Some last → is_above (R.above rows.old) key ≡ true → last < key }
    // Over a flash that stands for the copy the rows that come are put, and then it is flushed; where they are told, these come.
    ensures ships { (first : ℕ) (plan : Plan) (t : model.Table) → Works to.old (B.state onto.old) first plan t
        → RowsShip first plan t (R.told rows.old (contents_of (A.state from.old))) (take count (records_of (R.left rows.old (contents_of (A.state from.old))))) to.new (B.state onto.new) result }
    // Also where a cut is armed, just the work of this ship is done, as far as is answered; where a read of the source fails, the rows
    // that were taken are put, and nothing is flushed. So the copy keeps a front of what it had and was given, without its oldest records.
    ensures cut { (first : ℕ) (plan : Plan) (t : model.Table) (rose : Bool) (device : Device) → IsWatched (B.state onto.old) (B.state onto.new) rose device → Stands to.old (B.state onto.old) first plan t
        → RowsWork first plan (R.told rows.old (contents_of (A.state from.old))) (take count (records_of (R.left rows.old (contents_of (A.state from.old))))) (ShipsWork (AreTaken (R.told rows.old (contents_of (A.state from.old))) count (R.left rows.old (contents_of (A.state from.old))) (R.left rows.new (contents_of (A.state from.old)))) plan rose device t result) to.new (B.state onto.new) result }
    // Rows that are told have no bad page, and are as many as they are.
    ensures none_bad { R.told rows.old (contents_of (A.state from.old)) → (bad : BadPage) → result ≡ Err (ShipFault.Read (ReadFault.BadPage bad)) → ⊥ }
    ensures number { R.told rows.old (contents_of (A.state from.old)) → IfOk result (λ shipped. shipped ≡ length (take count (R.left rows.old (contents_of (A.state from.old))))) }
    // A fault has its cause, over any bytes; a bad page passes the test of the rows.
    ensures cause { IfErr result (ShipCausedBy (A.state from.old) (A.state from.new) (B.state onto.old) (B.state onto.new)) }
    ensures bad_page { (bad : BadPage) → result ≡ Err (ShipFault.Read (ReadFault.BadPage bad)) → R.passes rows.old (contents_of (A.state from.old)) bad }
    ensures spent { result ≡ Err (ShipFault.Put PutRefusal.Spent) → (key : ℕ) × (values : List ℤ) × (put_refusal to.new key values None ≡ Some PutRefusal.Spent) }
    // .. and before it a ring had fewer page numbers left than rows were asked for, whatever bytes the flash has.
    ensures numbers { result ≡ Err (ShipFault.Put PutRefusal.Spent) → HasFewNumbers to.old count }
    ensures few { IfOk result (λ shipped. shipped ≤ count) }
    ensures running { is_running to.new ≡ goes_on result }
    // The rows go on behind those that were put, above the copy's last key. Where a read fails, fewer than `count` of them were taken:
    // no row is looked for behind the last one that is asked for.
    ensures rows { Continues R.names R.schema R.above R.ready R.told R.passes (contents_of (A.state from.old)) rows.old rows.new }
    ensures left { R.told rows.old (contents_of (A.state from.old)) → IfOk result (λ shipped. R.left rows.new (contents_of (A.state from.old)) ≡ drop shipped (R.left rows.old (contents_of (A.state from.old)))) }
    ensures unread { R.told rows.old (contents_of (A.state from.old)) → (fault : ReadFault) → result ≡ Err (ShipFault.Read fault)
        → (n : ℕ) × (n < count) × (R.left rows.new (contents_of (A.state from.old)) ≡ drop n (R.left rows.old (contents_of (A.state from.old)))) }
    ensures above { OnOk result ((last key : ℕ) → last_key_in (table_in to.new) ≡ Some last → is_above (R.above rows.new) key ≡ true → last < key) }
    ensures reads { R.told rows.old (contents_of (A.state from.old)) → (A.state from.new).work.reads ≤ (A.state from.old).work.reads + R.most rows.old (contents_of (A.state from.old)) }
    ensures reads_only { OnlyReads (A.state from.old) (A.state from.new) }
    ensures goes { Goes (B.state onto.old) (B.state onto.new) }
    ensures outside { IsTrue (B.state onto.old).media.tells → OutsideStands to.old (page_at (B.state onto.old)) (page_at (B.state onto.new)) }
    ensures same { IsSamePlan to.old to.new }
    ensures lies { LiesOn to.new (B.state onto.new) }
{
    let shipped = put_rows(rows, from, to, onto, count)?;
    flush_copy(to, onto)?;
    Ok(shipped)
}
