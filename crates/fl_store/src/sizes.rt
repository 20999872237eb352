// The sizes of a table's index of pages, chosen here for all tables.

/// The knots that a table's spline keeps.
pub const KNOTS: usize = 64;

/// The slots that lead to these knots.
pub const SLOTS: usize = 64;

/// A table with as many knots and slots.
pub type Table = fl_table::Table<KNOTS, SLOTS>;

/// Such a table, and its log where it has one.
pub type LoggedTable = fl_rlc::LoggedTable<KNOTS, SLOTS>;

/// A cursor over such a table: for as long as the table, the buffer of its rows and that of its index pages are lent.
pub type Cursor<'s, 'r, 'i> = fl_cursor::Cursor<'s, 'r, 'i, KNOTS, SLOTS>;
