// What a selection is, in the model's words.
ghost use Rattle.std.specs.Prelude.{◌≡◌, ◌↔◌, filter};
ghost use Rattle.fl_model.specs.Operators.{select};
ghost use Rattle.fl_frame.specs.Contents.{Contents};
ghost use Rattle.fl_page.specs.declared.fault.BadPage.{BadPage};
ghost use Rattle.fl_ops.specs.Columns.{records_of, row_passes};
ghost use Rattle.fl_ops.specs.Select.{input_of, comparison_of};

use crate::Select;
use fl_flash::Flash;
use fl_page::{RowHere, Rows};

/// What a selection is as rows: the rows of its input that pass the comparison, and in all else its input.
pub fn selection_is_the_models<F: Flash, R: Rows<F>>(rows: &Select<R>)
    ensures rows { (contents : Contents) → ⟦<Select<R> as Rows<F>>⟧.left rows.now contents ≡ filter (row_passes (comparison_of rows.now)) (R.left (input_of rows.now) contents) }
    ensures records { (contents : Contents) → records_of (⟦<Select<R> as Rows<F>>⟧.left rows.now contents)
        ≡ select (comparison_of rows.now).column (comparison_of rows.now).op (comparison_of rows.now).value (records_of (R.left (input_of rows.now) contents)) }
    ensures told { (contents : Contents) → ⟦<Select<R> as Rows<F>>⟧.told rows.now contents ↔ R.told (input_of rows.now) contents }
    ensures ready { (contents : Contents) → ⟦<Select<R> as Rows<F>>⟧.ready rows.now contents ↔ R.ready (input_of rows.now) contents }
    ensures passes { (contents : Contents) (bad : BadPage) → ⟦<Select<R> as Rows<F>>⟧.passes rows.now contents bad ↔ R.passes (input_of rows.now) contents bad }
    ensures names { ⟦<Select<R> as Rows<F>>⟧.names rows.now ≡ R.names (input_of rows.now) }
    ensures here { ⟦<Select<R> as RowHere>⟧.here rows.now ≡ R.here (input_of rows.now) }
    ensures present { ⟦<Select<R> as RowHere>⟧.present rows.now ≡ R.present (input_of rows.now) }
    ensures schema { ⟦<Select<R> as RowHere>⟧.schema rows.now ≡ R.schema (input_of rows.now) }
    ensures above { ⟦<Select<R> as RowHere>⟧.above rows.now ≡ R.above (input_of rows.now) }
    ensures ended { ⟦<Select<R> as Rows<F>>⟧.ended rows.now ≡ R.ended (input_of rows.now) }
    ensures most { (contents : Contents) → ⟦<Select<R> as Rows<F>>⟧.most rows.now contents ≡ R.most (input_of rows.now) contents }
    ensures least { (contents : Contents) → ⟦<Select<R> as Rows<F>>⟧.least rows.now contents ≡ R.least (input_of rows.now) contents }
{}
