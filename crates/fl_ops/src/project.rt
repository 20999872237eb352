// Some columns of each row.
ghost use Rattle.std.specs.Prelude.{◌≡◌, ◌≤◌, ◌<◌, ℕ, length, slice_index};
ghost use Rattle.fl_ops.specs.Columns.{HasColumn};

use crate::columns::column;
use fl_flash::Flash;
use fl_page::{ReadFault, RowHere, Rows};

/// The listed columns of each row, in the order of the list. Column 0 is the key.
#[derive(Drop)]
pub struct Project<'c, R: RowHere> {
    rows: R,
    columns: &'c [usize],
    ghost within: { (i : ℕ) → i < length columns.now → HasColumn (R.schema rows) (slice_index columns.now i) },
}

impl<'c, R: RowHere> Project<'c, R> {
    ghost use Rattle.std.specs.Prelude.{◌+◌, ◌-◌, ◌^◌, true, false, Ok, Err, OnOk, IfOk, IfErr};
    ghost use Rattle.std.specs.Bool.{OnFalse};
    ghost use Rattle.fl_model.specs.Operators.{column_of, project};
    ghost use Rattle.fl_flash.specs.Flash.{FlashState};
    ghost use Rattle.fl_frame.specs.Contents.{contents_of, OnlyReads};
    ghost use Rattle.fl_page.specs.Causes.{IsCaused};
    ghost use Rattle.fl_page.specs.Steps.{left_after};
    ghost use Rattle.fl_page.specs.declared.fault.BadPage.{BadPage};
    ghost use Rattle.fl_ops.specs.Columns.{record_of, records_of};
    ghost use Rattle.fl_ops.specs.Inputs.{Continues, StepsOver};
    ghost use Rattle.fl_ops.specs.Project.{input_of, columns_of, fields_of};

    pub fn new(rows: R, columns: &'c [usize]) -> Project<'c, R>
        requires { (i : ℕ) → i < length columns.now → HasColumn (R.schema rows) (slice_index columns.now i) }
        ensures rows { input_of result ≡ rows }
        ensures columns { columns_of result ≡ columns.entry.now }
    {
        Project { rows, columns }
    }

    /// Field i of the present row, from 0, after a step that answered true.
    pub fn value(&self, i: usize) -> i128
        requires here { R.here (input_of self.now) ≡ true }
        requires within { i < length (columns_of self.now) }
        ensures { result ≡ column_of (record_of (R.present (input_of self.now))) (slice_index (columns_of self.now) i) }
    {
        column(&self.rows.row(), self.columns[i])
    }

    /// Goes to the next row, and says whether there is one. After an error the rows left may be told no more, and the
    /// projection isn't used again.
    pub fn step<F: Flash>(&mut self, flash: &mut F) -> Result<bool, ReadFault>
    where
        R: Rows<F>,
        requires { R.ready (input_of self.old) (contents_of (F.state flash.old)) }
        ensures reads_only { OnlyReads (F.state flash.old) (F.state flash.new) }
        ensures cause { IfErr result (λ fault. IsCaused (F.state flash.old) fault (F.state flash.new)) }
        ensures bad_page { (bad : BadPage) → result ≡ Err (ReadFault.BadPage bad) → R.passes (input_of self.old) (contents_of (F.state flash.old)) bad }
        ensures columns { columns_of self.new ≡ columns_of self.old }
        ensures input { Continues R.names R.schema R.above R.ready R.told R.passes (contents_of (F.state flash.old)) (input_of self.old) (input_of self.new) }
        ensures here { IfOk result (λ more. R.here (input_of self.new) ≡ more) }
        ensures end { IfOk result (λ more. OnFalse more (R.ended (input_of self.new) ≡ true)) }
        ensures sound { OnOk result (R.sound (input_of self.new) (contents_of (F.state flash.old)) → R.sound (input_of self.old) (contents_of (F.state flash.old))) }
        ensures all_sound { IfOk result (λ more. OnFalse more (R.sound (input_of self.old) (contents_of (F.state flash.old)))) }
        ensures stays_ended { R.ended (input_of self.old) ≡ true → (result ≡ Ok false) × (F.state flash.new ≡ F.state flash.old) }
        ensures steps { R.told (input_of self.old) (contents_of (F.state flash.old)) →
            StepsOver result (project (columns_of self.old) (records_of (R.left (input_of self.old) (contents_of (F.state flash.old)))))
            (fields_of (columns_of self.old) (R.present (input_of self.new)))
            (project (columns_of self.old) (records_of (R.left (input_of self.new) (contents_of (F.state flash.old))))) }
        ensures most { R.told (input_of self.old) (contents_of (F.state flash.old)) →
            (F.state flash.new).work.reads + left_after result (R.most (input_of self.new) (contents_of (F.state flash.old))) ≤ (F.state flash.old).work.reads + R.most (input_of self.old) (contents_of (F.state flash.old)) }
        ensures least { R.told (input_of self.old) (contents_of (F.state flash.old)) → (F.state flash.new).work.reads < 2 ^ 64 - 1 →
            OnOk result ((F.state flash.old).work.reads + R.least (input_of self.old) (contents_of (F.state flash.old)) ≤ (F.state flash.new).work.reads + R.least (input_of self.new) (contents_of (F.state flash.old))) }
        ensures none_left { R.told (input_of self.old) (contents_of (F.state flash.old)) → IfOk result (λ more. OnFalse more (R.least (input_of self.new) (contents_of (F.state flash.old)) ≡ 0)) }
    {
        self.rows.step(flash)
    }
}
