// The values of a row, for its line.
ghost use Rattle.std.specs.Prelude.{◌≡◌, ◌≤◌, length};
ghost use Rattle.fl_schema.specs.Schema.{layout_of_row, row_of};

use arrayvec::ArrayVec;
use fl_schema::RowRef;

/// The values of a row of so many columns.
#[inline(always)]
pub fn values_of(row: &RowRef<'_>, columns: usize) -> ArrayVec<i64, 8>
    requires columns { columns ≡ length (layout_of_row row.now).columns }
    requires few { columns ≤ 8 }
    ensures { result.items ≡ (row_of row.now).values }
{
    let mut values = ArrayVec::new();
    for i in 0..columns {
        values.push(row.value(i));
    }
    values
}
