// The oldest record whose blob isn't gone.
ghost use Rattle.std.specs.Prelude.{◌≡◌, ◌+◌, ◌-◌, ◌^◌, ◌<◌, ◌≤◌, ℕ, true, None, length, IsTrue, IfErr};
ghost use Rattle.fl_cursor.specs.Cursor.{index_name, left_of, rows_name, table_of, IfBad, IsReady, IsTold, MayBeBad};
ghost use Rattle.fl_cursor.specs.Reads.{most_of};
ghost use Rattle.fl_model.specs.Limits.{scan_limit};
ghost use Rattle.fl_model.specs.Record.{Plan};
ghost use Rattle.fl_model.specs.Table as model;
ghost use Rattle.fl_frame.specs.Contents.{Contents, contents_of, OnlyReads};
ghost use Rattle.fl_page.specs.Causes.{IsCaused};
ghost use Rattle.fl_schema.specs.Schema.{row_of};
ghost use Rattle.fl_table.specs.Memory.{is_running, LiesOn};
ghost use Rattle.fl_table.specs.Standing.{Stands};
ghost use Rattle.fl_queries.specs.Keys.{all_keys};
ghost use Rattle.fl_queries.specs.OldestBlob.{first_kept, is_kept, FindsAmong, FindsOldest};
ghost use Rattle.fl_queries.specs.Room.{HasRooms};
ghost use Rattle.fl_queries.specs.OldestTold.{OldestIn};

use crate::buffers::Buffers;
use fl_base::KeyRange;
use fl_flash::Flash;
use fl_page::{ReadFault, Rows};
use fl_schema::RowRef;
use fl_script::Reply;
use fl_store::{Cursor, Table};

/// The range of all keys.
const ALL_KEYS: KeyRange = KeyRange {
    low: 0,
    high: u64::MAX,
};

/// Whether the blob of a row isn't gone, where the oldest kept page of variable data has this number.
fn is_kept(row: &RowRef<'_>, oldest: u32) -> bool
    ensures { result ≡ is_kept oldest (row_of row.now).blob }
{
    match row.blob() {
        None => false,
        Some(at) => at.length == 0 || oldest <= at.page,
    }
}

/// The key of the first row whose blob isn't gone, if there is one.
fn first_kept<F: Flash, R: Rows<F>>(
    input: &mut R,
    oldest: u32,
    flash: &mut F,
) -> Result<Option<u64>, ReadFault>
    requires { R.ready input.old (contents_of (F.state flash.old)) }
    ensures counts { OnlyReads (F.state flash.old) (F.state flash.new) }
    ensures names { R.names input.new ≡ R.names input.old }
    ensures ready { (contents : Contents) → R.ready input.old contents → R.ready input.new contents }
    ensures cause { IfErr result (λ fault. IsCaused (F.state flash.old) fault (F.state flash.new)) }
    ensures bad_page { IfErr result (IfBad (R.passes input.old (contents_of (F.state flash.old)))) }
    ensures finds { R.told input.old (contents_of (F.state flash.old)) → length (R.left input.old (contents_of (F.state flash.old))) < 2 ^ 64 - 1 →
        FindsAmong (first_kept oldest (R.left input.old (contents_of (F.state flash.old)))) result }
    ensures reads { R.told input.old (contents_of (F.state flash.old)) → (F.state flash.new).work.reads ≤ (F.state flash.old).work.reads + R.most input.old (contents_of (F.state flash.old)) }
{
    'rows: for _at in 0..u64::MAX {
        if !input.step(flash)? {
            return Ok(None);
        }
        let row = input.row();
        if is_kept(&row, oldest) {
            return Ok(Some(row.key()));
        }
    }
    Ok(None)
}

/// The first row of a cursor whose blob isn't gone.
fn first_of<F: Flash>(
    cursor: &mut Cursor<'_, '_, '_>,
    oldest: u32,
    flash: &mut F,
) -> Result<Option<u64>, ReadFault>
    requires { IsReady cursor.old (contents_of (F.state flash.old)) }
    ensures counts { OnlyReads (F.state flash.old) (F.state flash.new) }
    ensures rows_name { rows_name cursor.new ≡ rows_name cursor.old }
    ensures index_name { index_name cursor.new ≡ index_name cursor.old }
    ensures ready { IsReady cursor.new (contents_of (F.state flash.old)) }
    ensures cause { IfErr result (λ fault. IsCaused (F.state flash.old) fault (F.state flash.new)) }
    ensures bad_page { IfErr result (IfBad (MayBeBad (table_of cursor.old) (contents_of (F.state flash.old)))) }
    ensures finds { IsTold cursor.old (contents_of (F.state flash.old)) → length (left_of cursor.old (contents_of (F.state flash.old))) < 2 ^ 64 - 1 →
        FindsAmong (first_kept oldest (left_of cursor.old (contents_of (F.state flash.old)))) result }
    ensures reads { IsTold cursor.old (contents_of (F.state flash.old)) → (F.state flash.new).work.reads ≤ (F.state flash.old).work.reads + most_of cursor.old (contents_of (F.state flash.old)) }
{
    first_kept(cursor, oldest, flash)
}

/// The key of the oldest record of a table whose blob isn't gone, if there is one, or why a page isn't read. No page of
/// blobs is read.
///
/// # Errors
///
/// `ReadFault`: the flash failed. `BadPage`: a page of the table or of its index is bad.
pub fn oldest_blob<F: Flash>(
    table: &Table,
    flash: &mut F,
    buf: &mut Buffers,
) -> Result<Option<u64>, Reply>
    requires running { is_running table.now ≡ true }
    requires lies { LiesOn table.now (F.state flash.old) }
    requires room { HasRooms buf.old (F.state flash.old).geometry.page }
    ensures cause { OldestIn table.now (F.state flash.old) (F.state flash.new) result }
    ensures counts { OnlyReads (F.state flash.old) (F.state flash.new) }
    ensures room { HasRooms buf.new (F.state flash.old).geometry.page }
    ensures finds { (first : ℕ) → (plan : Plan) → (t : model.Table) → IsTrue (F.state flash.old).media.tells → (F.state flash.old).is_on ≡ true → Stands table.now (F.state flash.old) first plan t →
        FindsOldest t (F.state flash.old).media.faults (F.state flash.new).media.faults result }
    ensures reads { (first : ℕ) → (plan : Plan) → (t : model.Table) → IsTrue (F.state flash.old).media.tells → Stands table.now (F.state flash.old) first plan t →
        (F.state flash.new).work.reads ≤ (F.state flash.old).work.reads + scan_limit 64 plan t all_keys None 0 }
{
    let Some(oldest) = table.oldest_blob_page() else {
        return Ok(None);
    };
    let mut cursor = Cursor::begin(table, ALL_KEYS, None, &mut buf.rows, &mut buf.index);
    match first_of(&mut cursor, oldest, flash) {
        Ok(key) => Ok(key),
        Err(ReadFault::Flash(_)) => Err(Reply::ReadFault),
        Err(ReadFault::BadPage(bad)) => {
            let number = bad.wanted;
            Err(Reply::BadPage { number })
        }
    }
}
