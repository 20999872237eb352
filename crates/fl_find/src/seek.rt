// Looks for a row by its key.
ghost use Rattle.std.specs.Prelude.{◌≡◌, ◌<◌, ◌≤◌, ℕ, Option, Some, None, length, MatchOption};
ghost use Rattle.fl_mark.specs.Mark.{state_of_page};
ghost use Rattle.fl_mark.specs.declared.page_state.PageState.TheVariants.{Committed};
ghost use Rattle.fl_page.specs.Page.{IsGoodPage};
ghost use Rattle.fl_schema.specs.Schema.{layout_of};
ghost use Rattle.fl_find.specs.Pages.{rows_on};
ghost use Rattle.fl_find.specs.Rows.{RowsRise, HasKey, LacksKey};

use fl_page::PageView;
use fl_schema::Schema;

/// The place of the row with the key in a committed page, and none where no row has it.
pub(crate) fn row_of(schema: &Schema<8>, bytes: &[u8], number: u32, key: u64) -> Option<usize>
    requires size { 24 ≤ length bytes.now }
    requires committed { state_of_page bytes.now ≡ Committed }
    requires good { IsGoodPage (layout_of schema.now) number bytes.now }
    ensures found { MatchOption result (RowsRise (rows_on (layout_of schema.now) bytes.now) → LacksKey (rows_on (layout_of schema.now) bytes.now) key)
        (λ row. HasKey (rows_on (layout_of schema.now) bytes.now) key row) }
{
    let Ok(view) = PageView::of(bytes, number, schema) else {
        unreachable!()
    };
    let row = view.seek(key);
    if row < view.rows() && view.row(row).key() == key {
        return Some(row);
    }
    None
}
