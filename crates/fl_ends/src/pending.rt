// The rows that no flush has written.
ghost use Rattle.std.specs.Prelude.{◌≡◌, is_some};
ghost use Rattle.std.specs.List.{list_any};

use fl_base::Name;

/// A table of which rows are pending, and how many.
#[derive(Clone, Copy, Debug, PartialEq, Eq)]
pub struct TableRows {
    /// The name of the table.
    pub name: Name,
    /// How many of its rows are pending.
    pub rows: u32,
}

/// The rows of the tables that no flush has written.
#[derive(Clone, Copy, Debug, PartialEq, Eq)]
pub struct PendingRows {
    /// The table at each place of the configuration, if rows of it are pending.
    pub tables: [Option<TableRows>; 4],
}

impl PendingRows {
    /// Whether rows of any table are pending.
    pub fn is_any(&self) -> bool
        ensures { result ≡ list_any is_some self.now.tables }
    {
        self.tables.iter().any(|table| table.is_some())
    }
}
