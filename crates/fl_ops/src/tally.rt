// What is known of the values of a group.
ghost use Rattle.std.specs.Prelude.{◌≡◌, ◌+◌, ◌-◌, ◌^◌, ◌<◌, ◌≤◌, ◌+ℤ◌, FitsSigned};
ghost use Rattle.std.specs.Int.{w128};
ghost use Rattle.fl_model.specs.Operators.{column_of};
ghost use Rattle.fl_schema.specs.Schema.{layout_of_row, row_of};
ghost use Rattle.fl_ops.specs.Columns.{HasColumn, record_of};
ghost use Rattle.fl_ops.specs.Groups.{group_in};
ghost use Rattle.fl_ops.specs.Tally.{tally_of, tally_more, tallied, HasBounds};

use crate::Group;
use crate::columns::column;
use fl_schema::RowRef;

/// What is known of the values of a group.
#[derive(Clone, Copy, Debug, PartialEq, Eq)]
pub(crate) struct Tally {
    count: u64,
    least: i128,
    greatest: i128,
    sum: i128,
}

impl Tally {
    // Of one value.
    fn of(value: i128) -> Tally
        ensures { result ≡ tally_of value }
    {
        Tally {
            count: 1,
            least: value,
            greatest: value,
            sum: value,
        }
    }

    // Of one value more.
    fn take(&mut self, value: i128)
        requires count { self.old.count < 2 ^ 64 - 1 }
        requires sum { FitsSigned w128 (self.old.sum +ℤ value) }
        ensures { self.new ≡ tally_more self.old value }
    {
        self.count += 1;
        self.least = self.least.min(value);
        self.greatest = self.greatest.max(value);
        self.sum += value;
    }

    /// Of the first row.
    pub(crate) fn of_row(row: &RowRef<'_>, number: usize) -> Tally
        requires { HasColumn (layout_of_row row.now) number }
        ensures value { result ≡ tally_of (column_of (record_of (row_of row.now)) number) }
        ensures bounds { HasBounds number ((row_of row.now).key + 1) result }
    {
        Tally::of(column(row, number))
    }

    /// Of one row more, with a greater key.
    pub(crate) fn take_row(&mut self, row: &RowRef<'_>, number: usize)
        requires column { HasColumn (layout_of_row row.now) number }
        requires count { self.old.count < 2 ^ 64 - 1 }
        requires bounds { HasBounds number (row_of row.now).key self.old }
        ensures value { self.new ≡ tally_more self.old (column_of (record_of (row_of row.now)) number) }
        ensures bounds { HasBounds number ((row_of row.now).key + 1) self.new }
    {
        self.take(column(row, number));
    }

    /// The group of these values.
    pub(crate) fn group(self, group: u64) -> Group
        requires { 1 ≤ self.count }
        ensures { group_in result ≡ tallied group self }
    {
        Group {
            group,
            count: self.count,
            least: self.least,
            greatest: self.greatest,
            sum: self.sum,
            mean: self.sum.div_euclid(i128::from(self.count)),
        }
    }
}
