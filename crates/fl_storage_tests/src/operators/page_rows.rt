// The rows of one page, so that the operators have an input.
ghost use Rattle.std.specs.Prelude.{◌≡◌, ◌+◌, ◌-◌, ◌≤◌, ◌==◌, true, None, Option, List, [], drop};
ghost use Rattle.fl_model.specs.Row.{row_in};
ghost use Rattle.fl_page.specs.Page.{row_at};
ghost use Rattle.fl_page.specs.Steps.{Ascends};
ghost use Rattle.fl_page.specs.View.{page_of, layout_of_page, count_of, rows_of};

use fl_flash::Flash;
use fl_page::{PageView, ReadFault, RowHere, Rows};
use fl_schema::RowRef;

/// The rows of a page, as far as their keys ascend.
#[derive(Clone, Copy)]
pub struct PageRows<'b> {
    view: PageView<'b, 8>,
    next: usize,
    above: Option<u64>,
    here: bool,
    ghost within: { next ≤ count_of view },
    ghost has_row: { here ≡ true → 1 ≤ next },
}

impl<'b> PageRows<'b> {
    pub fn new(view: PageView<'b, 8>) -> PageRows<'b>
        ensures { result.view ≡ view.entry }
    {
        PageRows {
            view,
            next: 0,
            above: None,
            here: false,
        }
    }
}

impl RowHere for PageRows<'_> {
    ghost here = { λ rows. rows.here };

    ghost present = { λ rows. row_in (layout_of_page rows.view) (row_at (layout_of_page rows.view) (page_of rows.view) (rows.next - 1)) };

    ghost schema = { λ rows. layout_of_page rows.view };

    ghost above = { λ rows. rows.above };

    fn row(&self) -> RowRef<'_> {
        self.view.row(self.next - 1)
    }
}

impl<F: Flash> Rows<F> for PageRows<'_> {
    ghost names = { λ rows. [] };

    ghost ready = { λ rows contents. Unit {0} };

    ghost told = { λ rows contents. Ascends rows.above (drop rows.next (rows_of rows.view)) };

    ghost left = { λ rows contents. drop rows.next (rows_of rows.view) };

    ghost ended = { λ rows. rows.next == count_of rows.view };

    ghost passes = { λ rows contents bad. ⊥ };

    ghost sound = { λ rows contents. Unit {0} };

    ghost most = { λ rows contents. 0 };

    ghost least = { λ rows contents. 0 };

    ghost ascends = { λ rows contents told. told };

    fn step(&mut self, _flash: &mut F) -> Result<bool, ReadFault> {
        self.here = false;
        if self.next == self.view.rows() {
            return Ok(false);
        }
        let key = self.view.row(self.next).key();
        if let Some(above) = self.above {
            if key <= above {
                self.next = self.view.rows();
                return Ok(false);
            }
        }
        self.next += 1;
        self.above = Some(key);
        self.here = true;
        Ok(true)
    }
}
