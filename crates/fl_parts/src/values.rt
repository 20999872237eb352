// The values that don't fit their columns.
ghost use Rattle.std.specs.Prelude.{◌≡◌, ◌≤◌, length};
ghost use Rattle.fl_model.specs.Record.{fits, first_misfit};
ghost use Rattle.fl_schema.specs.Types.{column_of};
ghost use Rattle.fl_schema.specs.Schema.{layout_of, types_of};

use fl_schema::{ColumnType, Schema};

fn is_fit(column: ColumnType, value: i64) -> bool
    ensures { result ≡ fits (column_of column) value }
{
    column.least() <= value && value <= column.greatest()
}

/// The first column, counted from 1, that its value doesn't fit; none where each value fits its column.
pub fn misfit(schema: &Schema<8>, values: &[i64]) -> Option<u32>
    requires as_many { length values.now ≡ length (types_of schema.now) }
    requires few { length values.now ≤ 8 }
    ensures { result ≡ first_misfit 1 (layout_of schema.now).columns values.now }
{
    for i in 0..values.len() {
        if !is_fit(schema.column(i), values[i]) {
            return Some(i as u32 + 1);
        }
    }
    None
}
