// The columns of a row, and how they compare.
ghost use Rattle.std.specs.Prelude.{◌≡◌, ◌^◌, ◌<◌, ◌≤◌, pos, unsigned_abs};
ghost use Rattle.fl_model.specs.Operators.{column_of, compares};
ghost use Rattle.fl_schema.specs.Schema.{layout_of_row, row_of};
ghost use Rattle.fl_ops.specs.Columns.{HasColumn, record_of};

use fl_base::Op;
use fl_schema::RowRef;

/// A column of a row as a whole number. Column 0 is the key.
#[tactic(auto, using(crate::proofs::ColumnValues::column_values))]
pub(crate) fn column(row: &RowRef<'_>, column: usize) -> i128
    requires { HasColumn (layout_of_row row.now) column }
    ensures value { result ≡ column_of (record_of (row_of row.now)) column }
    ensures key { column ≡ 0 → result ≡ pos (row_of row.now).key }
    ensures small { unsigned_abs result < 2 ^ 64 }
    ensures value_small { 0 < column → unsigned_abs result ≤ 2 ^ 63 }
{
    if column == 0 {
        i128::from(row.key())
    } else {
        i128::from(row.value(column - 1))
    }
}

/// Whether a number compares so with a value.
pub(crate) fn compares(number: i128, op: Op, value: i128) -> bool
    ensures { result ≡ compares op number value }
{
    match op {
        Op::Lt => number < value,
        Op::Le => number <= value,
        Op::Eq => number == value,
        Op::Ne => number != value,
        Op::Ge => number >= value,
        Op::Gt => number > value,
    }
}
