// The rule on the keys of the rows: they ascend.
ghost use Rattle.std.specs.Prelude.{◌↔◌, IsTrue};
ghost use Rattle.fl_page.specs.Steps.{Ascends};
ghost use Rattle.fl_page.specs.View.{rows_of};

use fl_page::PageView;

/// Whether the keys of a page's rows ascend, the first of them above this one.
pub fn keys_ascend<const COLS: usize>(view: &PageView<'_, COLS>, above: Option<u64>) -> bool
    ensures { IsTrue result ↔ Ascends above (rows_of view.now) }
{
    let mut last = above;
    for i in 0..view.rows() {
        let key = view.row(i).key();
        if let Some(before) = last {
            if key <= before {
                return false;
            }
        }
        last = Some(key);
    }
    true
}
