// A table with a log.
ghost use Rattle.std.specs.Prelude.{◌≡◌, ◌≤◌, ◌+◌, true, false, is_some};
ghost use Rattle.std.specs.Option.{ForSome};
ghost use Rattle.fl_model.specs.Record.{layout_len};
ghost use Rattle.fl_table.specs.BlobAt.{has_blobs};
ghost use Rattle.fl_table.specs.Look.{layout_in};
ghost use Rattle.fl_table.specs.Memory as table_words;
ghost use Rattle.fl_rlc.specs.Memory.{is_mounted, page_len};

use crate::log::RecordLog;
use fl_table::Table;

/// A table, and its log where it has one. Without a log each call is the table's.
///
/// With one each put ends with a page of all pending rows in the log, so that a record whose put answered `Ok` survives a
/// lost power: the next mount that succeeds has it, unless the table's ring has given up its page since, or the page
/// numbers of the table are spent.
#[derive(Drop)]
pub struct LoggedTable<const KNOTS: usize, const SLOTS: usize> {
    pub(crate) table: Table<KNOTS, SLOTS>,
    pub(crate) log: Option<RecordLog>,
    ghost running: { ForSome log (λ l. table_words.is_running table ≡ true → is_mounted l ≡ true) },
    ghost no_blobs: { is_some log ≡ true → has_blobs table ≡ false },
    ghost room: { ForSome log (λ l. layout_len (layout_in table) + 24 ≤ page_len l) },
}

impl<const KNOTS: usize, const SLOTS: usize> LoggedTable<KNOTS, SLOTS> {
    ghost use Rattle.fl_rlc.specs.Table.{table_in};

    /// The table itself, for queries.
    pub fn table(&self) -> &Table<KNOTS, SLOTS>
        ensures { result.now ≡ table_in self.now }
    {
        &self.table
    }
}
