// Rows in groups.
ghost use Rattle.std.specs.Prelude.{◌≡◌, ◌+◌, ◌*◌, ◌/◌, ◌<◌, ◌≤◌, true, Some};
ghost use Rattle.fl_schema.specs.Schema.{row_of};
ghost use Rattle.fl_ops.specs.Columns.{HasColumn};

use crate::Group;
use crate::tally::Tally;
use fl_flash::Flash;
use fl_page::{ReadFault, RowHere, Rows};
use fl_schema::RowRef;

// The group of a row.
fn group_number(row: &RowRef<'_>, width: u64) -> u64
    requires { 1 ≤ width }
    ensures number { result ≡ (row_of row.now).key / width }
    ensures from { result * width ≤ (row_of row.now).key }
    ensures to { (row_of row.now).key < result * width + width }
{
    row.key() / width
}

/// The rows in groups by their keys divided by the width, and in each group the values of one column. Column 0 is the key.
#[derive(Drop)]
pub struct Aggregate<R: RowHere> {
    rows: R,
    column: usize,
    width: u64,
    // The present row begins the next group.
    waiting: bool,
    ghost within: { HasColumn (R.schema rows) column },
    ghost some_width: { 1 ≤ width },
    ghost at_row: { waiting ≡ true → R.here rows ≡ true },
    ghost at_key: { waiting ≡ true → R.above rows ≡ Some (R.present rows).key },
}

impl<R: RowHere> Aggregate<R> {
    ghost use Rattle.std.specs.Prelude.{◌-◌, ◌^◌, false, None, Ok, Err, OnOk, IfOk, IfErr, IfNone, List, ◌∷◌};
    ghost use Rattle.std.specs.Bool.{OnTrue, OnFalse};
    ghost use Rattle.fl_model.specs.Row.{Row};
    ghost use Rattle.fl_model.specs.Operators.{aggregate};
    ghost use Rattle.fl_flash.specs.Flash.{FlashState};
    ghost use Rattle.fl_frame.specs.Contents.{contents_of, OnlyReads};
    ghost use Rattle.fl_page.specs.Causes.{IsCaused};
    ghost use Rattle.fl_page.specs.Steps.{Steps, left_after};
    ghost use Rattle.fl_page.specs.declared.fault.BadPage.{BadPage};
    ghost use Rattle.fl_ops.specs.Columns.{records_of};
    ghost use Rattle.fl_ops.specs.Inputs.{Continues};
    ghost use Rattle.fl_ops.specs.Groups.{input_of, column_in, width_of, has_row, ungrouped, groups_left, GroupSteps};

    pub fn new(rows: R, column: usize, width: u64) -> Aggregate<R>
        requires column { HasColumn (R.schema rows) column }
        requires width { 1 ≤ width }
        ensures rows { input_of result ≡ rows }
        ensures groups { (present : Row) (left : List Row) → groups_left result present left ≡ aggregate column width (records_of left) }
    {
        Aggregate {
            rows,
            column,
            width,
            waiting: false,
        }
    }

    // Goes to the first row of the next group.
    fn begin<F: Flash>(&mut self, flash: &mut F) -> Result<bool, ReadFault>
    where
        R: Rows<F>,
        requires { R.ready (input_of self.old) (contents_of (F.state flash.old)) }
        ensures reads_only { OnlyReads (F.state flash.old) (F.state flash.new) }
        ensures cause { IfErr result (λ fault. IsCaused (F.state flash.old) fault (F.state flash.new)) }
        ensures bad_page { (bad : BadPage) → result ≡ Err (ReadFault.BadPage bad) → R.passes (input_of self.old) (contents_of (F.state flash.old)) bad }
        ensures column { column_in self.new ≡ column_in self.old }
        ensures width { width_of self.new ≡ width_of self.old }
        ensures none_waits { has_row self.new ≡ false }
        ensures input { Continues R.names R.schema R.above R.ready R.told R.passes (contents_of (F.state flash.old)) (input_of self.old) (input_of self.new) }
        ensures here { IfOk result (λ more. OnTrue more ((R.here (input_of self.new) ≡ true) × (R.above (input_of self.new) ≡ Some (R.present (input_of self.new)).key))) }
        ensures end { IfOk result (λ more. OnFalse more (R.ended (input_of self.new) ≡ true)) }
        ensures sound { OnOk result (R.sound (input_of self.new) (contents_of (F.state flash.old)) → R.sound (input_of self.old) (contents_of (F.state flash.old))) }
        ensures all_sound { IfOk result (λ more. OnFalse more (R.sound (input_of self.old) (contents_of (F.state flash.old)))) }
        ensures stays_ended { R.ended (input_of self.old) ≡ true → has_row self.old ≡ false → (result ≡ Ok false) × (F.state flash.new ≡ F.state flash.old) }
        ensures steps { R.told (input_of self.old) (contents_of (F.state flash.old)) →
            Steps result (ungrouped (has_row self.old) (R.present (input_of self.old)) (R.left (input_of self.old) (contents_of (F.state flash.old))))
            (R.present (input_of self.new)) (R.left (input_of self.new) (contents_of (F.state flash.old))) }
        ensures most { R.told (input_of self.old) (contents_of (F.state flash.old)) →
            (F.state flash.new).work.reads + left_after result (R.most (input_of self.new) (contents_of (F.state flash.old))) ≤ (F.state flash.old).work.reads + R.most (input_of self.old) (contents_of (F.state flash.old)) }
        ensures least { R.told (input_of self.old) (contents_of (F.state flash.old)) → (F.state flash.new).work.reads < 2 ^ 64 - 1 →
            OnOk result ((F.state flash.old).work.reads + R.least (input_of self.old) (contents_of (F.state flash.old)) ≤ (F.state flash.new).work.reads + R.least (input_of self.new) (contents_of (F.state flash.old))) }
        ensures none_left { R.told (input_of self.old) (contents_of (F.state flash.old)) → IfOk result (λ more. OnFalse more (R.least (input_of self.new) (contents_of (F.state flash.old)) ≡ 0)) }
    {
        if self.waiting {
            self.waiting = false;
            return Ok(true);
        }
        self.rows.step(flash)
    }

    /// The next group, or none where no row is left. Groups come in ascending order, and each has a row. An error loses the
    /// rows of the group that was begun, so no step follows it.
    pub fn step<F: Flash>(&mut self, flash: &mut F) -> Result<Option<Group>, ReadFault>
    where
        R: Rows<F>,
        requires { R.ready (input_of self.old) (contents_of (F.state flash.old)) }
        ensures reads_only { OnlyReads (F.state flash.old) (F.state flash.new) }
        ensures cause { IfErr result (λ fault. IsCaused (F.state flash.old) fault (F.state flash.new)) }
        ensures bad_page { (bad : BadPage) → result ≡ Err (ReadFault.BadPage bad) → R.passes (input_of self.old) (contents_of (F.state flash.old)) bad }
        ensures column { column_in self.new ≡ column_in self.old }
        ensures width { width_of self.new ≡ width_of self.old }
        ensures input { Continues R.names R.schema R.above R.ready R.told R.passes (contents_of (F.state flash.old)) (input_of self.old) (input_of self.new) }
        ensures end { IfOk result (λ group. IfNone group ((R.ended (input_of self.new) ≡ true) × (has_row self.new ≡ false))) }
        ensures sound { OnOk result (R.sound (input_of self.new) (contents_of (F.state flash.old)) → R.sound (input_of self.old) (contents_of (F.state flash.old))) }
        ensures all_sound { IfOk result (λ group. IfNone group (R.sound (input_of self.old) (contents_of (F.state flash.old)))) }
        ensures stays_ended { R.ended (input_of self.old) ≡ true → has_row self.old ≡ false → (result ≡ Ok None) × (F.state flash.new ≡ F.state flash.old) }
        ensures steps { R.told (input_of self.old) (contents_of (F.state flash.old)) →
            GroupSteps result (groups_left self.old (R.present (input_of self.old)) (R.left (input_of self.old) (contents_of (F.state flash.old))))
            (groups_left self.new (R.present (input_of self.new)) (R.left (input_of self.new) (contents_of (F.state flash.old)))) }
        ensures most { R.told (input_of self.old) (contents_of (F.state flash.old)) →
            (F.state flash.new).work.reads + left_after result (R.most (input_of self.new) (contents_of (F.state flash.old))) ≤ (F.state flash.old).work.reads + R.most (input_of self.old) (contents_of (F.state flash.old)) }
        ensures least { R.told (input_of self.old) (contents_of (F.state flash.old)) → (F.state flash.new).work.reads < 2 ^ 64 - 1 →
            OnOk result ((F.state flash.old).work.reads + R.least (input_of self.old) (contents_of (F.state flash.old)) ≤ (F.state flash.new).work.reads + R.least (input_of self.new) (contents_of (F.state flash.old))) }
        ensures none_left { R.told (input_of self.old) (contents_of (F.state flash.old)) → IfOk result (λ group. IfNone group (R.least (input_of self.new) (contents_of (F.state flash.old)) ≡ 0)) }
    {
        if !self.begin(flash)? {
            return Ok(None);
        }
        let first = self.rows.row();
        let group = group_number(&first, self.width);
        let mut tally = Tally::of_row(&first, self.column);
        while self.rows.step(flash)? {
            let row = self.rows.row();
            if group_number(&row, self.width) != group {
                self.waiting = true;
                return Ok(Some(tally.group(group)));
            }
            tally.take_row(&row, self.column);
        }
        Ok(Some(tally.group(group)))
    }
}
