// The rows that pass a comparison.
ghost use Rattle.std.specs.Prelude.{◌≡◌, ◌≤◌, filter};
ghost use Rattle.fl_ops.specs.Columns.{HasColumn, row_passes};
ghost use Rattle.fl_page.specs.Ascending.{Ascends-filter};

use crate::columns::{column, compares};
use fl_base::Op;
use fl_flash::Flash;
use fl_page::{ReadFault, RowHere, Rows};
use fl_schema::RowRef;

/// The rows of which a column compares so with a value.
#[derive(Drop)]
pub struct Select<R: RowHere> {
    rows: R,
    column: usize,
    op: Op,
    value: i64,
    ghost within: { HasColumn (R.schema rows) column },
}

impl<R: RowHere> Select<R> {
    ghost use Rattle.fl_ops.specs.Select.{input_of, comparison_of};

    pub fn new(rows: R, column: usize, op: Op, value: i64) -> Select<R>
        requires { HasColumn (R.schema rows) column }
        ensures rows { input_of result ≡ rows }
        ensures comparison { comparison_of result ≡ record { column = column; op = op; value = value } }
    {
        Select {
            rows,
            column,
            op,
            value,
        }
    }
}

impl<R: RowHere> RowHere for Select<R> {
    ghost here = { λ select. R.here select.rows };

    ghost present = { λ select. R.present select.rows };

    ghost schema = { λ select. R.schema select.rows };

    ghost above = { λ select. R.above select.rows };

    fn row(&self) -> RowRef<'_> {
        self.rows.row()
    }
}

impl<F: Flash, R: Rows<F>> Rows<F> for Select<R> {
    ghost use Rattle.fl_ops.specs.Select.{comparison_of};

    ghost names = { λ select. R.names select.rows };

    ghost ready = { λ select. R.ready select.rows };

    ghost told = { λ select. R.told select.rows };

    ghost left = { λ select contents. filter (row_passes (comparison_of select)) (R.left select.rows contents) };

    ghost ended = { λ select. R.ended select.rows };

    ghost passes = { λ select. R.passes select.rows };

    ghost sound = { λ select. R.sound select.rows };

    ghost most = { λ select. R.most select.rows };

    ghost least = { λ select. R.least select.rows };

    ghost ascends = { λ select contents told. Ascends-filter (row_passes (comparison_of select)) _ _ (R.ascends select.rows contents told) };

    #[tactic(auto, using(crate::proofs::Calls::calls))]
    fn step(&mut self, flash: &mut F) -> Result<bool, ReadFault> {
        while self.rows.step(flash)? {
            let number = column(&self.rows.row(), self.column);
            if compares(number, self.op, i128::from(self.value)) {
                return Ok(true);
            }
        }
        Ok(false)
    }
}
