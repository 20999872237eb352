// Which records a copy doesn't have, and whether they are all there.
ghost use Rattle.std.specs.Prelude.{◌≡◌, ℕ, true, Some, None, IsTrue, IfErr, Err, List, length, map};
ghost use Rattle.fl_cursor.specs.Cursor.{left_of, table_of, IfBad, IsReady, IsTold, MayBeBad};
ghost use Rattle.fl_cursor.specs.Going.{Keeps};
ghost use Rattle.fl_model.specs.Record.{Plan};
ghost use Rattle.fl_model.specs.Row.{stored_row};
ghost use Rattle.fl_model.specs.Ship.{records_in};
ghost use Rattle.fl_model.specs.Table as model;
ghost use Rattle.fl_model.specs.Table.{Entry};
ghost use Rattle.fl_frame.specs.Contents.{contents_of, OnlyReads};
ghost use Rattle.fl_page.specs.Causes.{IsCaused};
ghost use Rattle.fl_page.specs.declared.fault.BadPage.{BadPage};
ghost use Rattle.fl_page.specs.declared.fault.ReadFault.{ReadFault};
ghost use Rattle.fl_table.specs.Look.{last_key_in};
ghost use Rattle.fl_table.specs.Memory.{is_running, LiesOn};
ghost use Rattle.fl_table.specs.Standing.{Stands};
ghost use Rattle.fl_ship.specs.Missing.{keys_above, FirstIs, LookCausedBy, LooksForGap};
ghost use Rattle.fl_ship.specs.declared.fault.ShipFault.{ShipFault};
ghost use Rattle.fl_ship.specs.declared.stop.Stop.{Stop};

use crate::rooms::Rooms;
use crate::stop::Stop;
use fl_base::{KeyRange, Steps};
use fl_flash::Flash;
use fl_page::{ReadFault, RowHere};
use fl_store::{Cursor, Table};

/// The range of all keys.
const ALL_KEYS: KeyRange = KeyRange {
    low: 0,
    high: u64::MAX,
};

/// The keys above the last one, all where there is none; none are above the greatest.
pub(crate) fn keys_above(last: Option<u64>) -> Option<KeyRange>
    ensures { result ≡ keys_above last }
{
    let Some(last) = last else {
        return Some(ALL_KEYS);
    };
    let low = last.checked_add(1)?;
    let high = u64::MAX;
    Some(KeyRange { low, high })
}

/// The key of the next row of a cursor, if there is one.
fn next_key<A: Flash>(
    cursor: &mut Cursor<'_, '_, '_>,
    from: &mut A,
) -> Result<Option<u64>, ReadFault>
    requires ready { IsReady cursor.old (contents_of (A.state from.old)) }
    ensures next { (entries : List Entry) → IsTold cursor.old (contents_of (A.state from.old)) → left_of cursor.old (contents_of (A.state from.old)) ≡ map stored_row entries → FirstIs (map (λ entry. entry.kept) entries) result }
    ensures keeps { Keeps cursor.old cursor.new }
    ensures cause { IfErr result (λ fault. IsCaused (A.state from.old) fault (A.state from.new)) }
    ensures bad_page { IfErr result (IfBad (MayBeBad (table_of cursor.old) (contents_of (A.state from.old)))) }
    ensures reads_only { OnlyReads (A.state from.old) (A.state from.new) }
{
    if cursor.advance(from)? {
        return Ok(Some(cursor.row().key()));
    }
    Ok(None)
}

/// The first key of a table, if it has a record.
fn first_key<A: Flash>(
    source: &Table,
    from: &mut A,
    rooms: &mut Rooms,
) -> Result<Option<u64>, ReadFault>
    requires running { is_running source.now ≡ true }
    requires lies { LiesOn source.now (A.state from.old) }
    requires rows { length rooms.old.rows.bytes ≡ (A.state from.old).geometry.page }
    requires index { length rooms.old.index.bytes ≡ (A.state from.old).geometry.page }
    ensures first { (first : ℕ) (plan : Plan) (t : model.Table) → IsTrue (A.state from.old).media.tells → Stands source.now (A.state from.old) first plan t → FirstIs (records_in t) result }
    ensures cause { IfErr result (λ fault. IsCaused (A.state from.old) fault (A.state from.new)) }
    ensures bad_page { IfErr result (IfBad (MayBeBad source.now (contents_of (A.state from.old)))) }
    ensures reads_only { OnlyReads (A.state from.old) (A.state from.new) }
    ensures rows { length rooms.new.rows.bytes ≡ length rooms.old.rows.bytes }
    ensures index { length rooms.new.index.bytes ≡ length rooms.old.index.bytes }
{
    let mut cursor = Cursor::begin(source, ALL_KEYS, None, &mut rooms.rows, &mut rooms.index);
    let key = next_key(&mut cursor, from);
    cursor.park();
    key
}

/// Looks whether the source goes on where a copy with this last key ends: it has a record with that key, or one of the two has no
/// record.
pub(crate) fn look_for_gap<A: Flash>(
    source: &Table,
    last: Option<u64>,
    from: &mut A,
    rooms: &mut Rooms,
) -> Result<(), Stop>
    requires running { is_running source.now ≡ true }
    requires lies { LiesOn source.now (A.state from.old) }
    requires rows { length rooms.old.rows.bytes ≡ (A.state from.old).geometry.page }
    requires index { length rooms.old.index.bytes ≡ (A.state from.old).geometry.page }
    ensures looks { (first : ℕ) (plan : Plan) (t : model.Table) → IsTrue (A.state from.old).media.tells → Stands source.now (A.state from.old) first plan t → LooksForGap (records_in t) last result }
    ensures cause { IfErr result (LookCausedBy (A.state from.old) (A.state from.new)) }
    ensures bad_page { (bad : BadPage) → result ≡ Err (Stop.Ship (ShipFault.Read (ReadFault.BadPage bad))) → MayBeBad source.now (contents_of (A.state from.old)) bad }
    ensures gap { (key oldest : ℕ) → result ≡ Err (Stop.Gap key oldest) → (last ≡ Some key) × (last_key_in source.now ≡ None → ⊥) }
    ensures reads_only { OnlyReads (A.state from.old) (A.state from.new) }
    ensures rows { length rooms.new.rows.bytes ≡ length rooms.old.rows.bytes }
    ensures index { length rooms.new.index.bytes ≡ length rooms.old.index.bytes }
{
    let Some(last) = last else {
        return Ok(());
    };
    if source.last_key().is_none() {
        return Ok(());
    }
    let mut steps = Steps::new();
    if source
        .find(from, last, &mut rooms.rows, &mut steps)?
        .is_some()
    {
        return Ok(());
    }
    match first_key(source, from, rooms)? {
        Some(oldest) => Err(Stop::Gap { last, oldest }),
        None => Ok(()),
    }
}
