// Pairs of rows with one key.
ghost use Rattle.std.specs.Prelude.{◌≡◌, ◌≢◌, ◌⊎◌, ◌+◌, ◌<◌, ◌≤◌, true, false, Some, Ok, Err, OnOk, IfOk, IfErr};
ghost use Rattle.std.specs.Bool.{OnTrue, OnFalse};
ghost use Rattle.fl_model.specs.Operators.{key_join};
ghost use Rattle.fl_flash.specs.Flash.{FlashState};
ghost use Rattle.fl_schema.specs.Schema.{layout_of_row, row_of};
ghost use Rattle.fl_frame.specs.Contents.{contents_of, OnlyReads};
ghost use Rattle.fl_page.specs.Causes.{IsCaused};
ghost use Rattle.fl_page.specs.Steps.{left_after};
ghost use Rattle.fl_page.specs.declared.fault.BadPage.{BadPage};
ghost use Rattle.fl_ops.specs.Columns.{records_of};
ghost use Rattle.fl_ops.specs.Inputs.{Continues, StepsOver};
ghost use Rattle.fl_ops.specs.Pairs.{pair_of, pairs_from, keys_above, PairsGo};
ghost use Rattle.fl_ops.specs.Join.{left_of, right_of, has_ended, pairs_left};

use fl_flash::Flash;
use fl_page::{ReadFault, RowHere, Rows};
use fl_schema::RowRef;

// Goes to the next row of each.
fn step_both<F: Flash, A: Rows<F>, B: Rows<F>>(
    left: &mut A,
    right: &mut B,
    flash: &mut F,
) -> Result<bool, ReadFault>
    requires left { A.ready left.old (contents_of (F.state flash.old)) }
    requires right { B.ready right.old (contents_of (F.state flash.old)) }
    ensures reads_only { OnlyReads (F.state flash.old) (F.state flash.new) }
    ensures cause { IfErr result (λ fault. IsCaused (F.state flash.old) fault (F.state flash.new)) }
    ensures bad_page { (bad : BadPage) → result ≡ Err (ReadFault.BadPage bad) → A.passes left.old (contents_of (F.state flash.old)) bad ⊎ B.passes right.old (contents_of (F.state flash.old)) bad }
    ensures left { Continues A.names A.schema A.above A.ready A.told A.passes (contents_of (F.state flash.old)) left.old left.new }
    ensures right { Continues B.names B.schema B.above B.ready B.told B.passes (contents_of (F.state flash.old)) right.old right.new }
    ensures left_sound { OnOk result (A.sound left.new (contents_of (F.state flash.old)) → A.sound left.old (contents_of (F.state flash.old))) }
    ensures right_sound { OnOk result (B.sound right.new (contents_of (F.state flash.old)) → B.sound right.old (contents_of (F.state flash.old))) }
    ensures all_sound { IfOk result (λ more. OnFalse more (A.sound left.old (contents_of (F.state flash.old)) ⊎ B.sound right.old (contents_of (F.state flash.old)))) }
    ensures here { IfOk result (λ more. OnTrue more ((A.here left.new ≡ true) × (B.here right.new ≡ true))) }
    ensures keys { IfOk result (λ more. OnTrue more ((A.above left.new ≡ Some (A.present left.new).key) × (B.above right.new ≡ Some (B.present right.new).key))) }
    ensures pairs { A.told left.old (contents_of (F.state flash.old)) → B.told right.old (contents_of (F.state flash.old)) → PairsGo result
        (key_join (records_of (A.left left.old (contents_of (F.state flash.old)))) (records_of (B.left right.old (contents_of (F.state flash.old)))))
        (pairs_from (A.present left.new) (A.left left.new (contents_of (F.state flash.old))) (B.present right.new) (B.left right.new (contents_of (F.state flash.old))))
        (key_join (records_of (A.left left.new (contents_of (F.state flash.old)))) (records_of (B.left right.new (contents_of (F.state flash.old))))) }
    ensures most { A.told left.old (contents_of (F.state flash.old)) → B.told right.old (contents_of (F.state flash.old)) →
        (F.state flash.new).work.reads + left_after result (A.most left.new (contents_of (F.state flash.old)) + B.most right.new (contents_of (F.state flash.old)))
        ≤ (F.state flash.old).work.reads + (A.most left.old (contents_of (F.state flash.old)) + B.most right.old (contents_of (F.state flash.old))) }
{
    if !left.step(flash)? {
        return Ok(false);
    }
    right.step(flash)
}

// Passes the row with the lesser key.
fn step_lesser<F: Flash, A: Rows<F>, B: Rows<F>>(
    left: &mut A,
    right: &mut B,
    flash: &mut F,
) -> Result<bool, ReadFault>
    requires left { A.ready left.old (contents_of (F.state flash.old)) }
    requires right { B.ready right.old (contents_of (F.state flash.old)) }
    requires left_here { A.here left.old ≡ true }
    requires right_here { B.here right.old ≡ true }
    requires left_key { A.above left.old ≡ Some (A.present left.old).key }
    requires right_key { B.above right.old ≡ Some (B.present right.old).key }
    requires differ { (A.present left.old).key ≢ (B.present right.old).key }
    ensures reads_only { OnlyReads (F.state flash.old) (F.state flash.new) }
    ensures cause { IfErr result (λ fault. IsCaused (F.state flash.old) fault (F.state flash.new)) }
    ensures bad_page { (bad : BadPage) → result ≡ Err (ReadFault.BadPage bad) → A.passes left.old (contents_of (F.state flash.old)) bad ⊎ B.passes right.old (contents_of (F.state flash.old)) bad }
    ensures left { Continues A.names A.schema A.above A.ready A.told A.passes (contents_of (F.state flash.old)) left.old left.new }
    ensures right { Continues B.names B.schema B.above B.ready B.told B.passes (contents_of (F.state flash.old)) right.old right.new }
    ensures left_sound { OnOk result (A.sound left.new (contents_of (F.state flash.old)) → A.sound left.old (contents_of (F.state flash.old))) }
    ensures right_sound { OnOk result (B.sound right.new (contents_of (F.state flash.old)) → B.sound right.old (contents_of (F.state flash.old))) }
    ensures all_sound { IfOk result (λ more. OnFalse more (A.sound left.old (contents_of (F.state flash.old)) ⊎ B.sound right.old (contents_of (F.state flash.old)))) }
    ensures here { IfOk result (λ more. OnTrue more ((A.here left.new ≡ true) × (B.here right.new ≡ true))) }
    ensures keys { IfOk result (λ more. OnTrue more ((A.above left.new ≡ Some (A.present left.new).key) × (B.above right.new ≡ Some (B.present right.new).key))) }
    ensures fewer { IfOk result (λ more. OnTrue more (keys_above (A.above left.new) + keys_above (B.above right.new) < keys_above (A.above left.old) + keys_above (B.above right.old))) }
    ensures pairs { A.told left.old (contents_of (F.state flash.old)) → B.told right.old (contents_of (F.state flash.old)) → PairsGo result
        (pairs_from (A.present left.old) (A.left left.old (contents_of (F.state flash.old))) (B.present right.old) (B.left right.old (contents_of (F.state flash.old))))
        (pairs_from (A.present left.new) (A.left left.new (contents_of (F.state flash.old))) (B.present right.new) (B.left right.new (contents_of (F.state flash.old))))
        (key_join (records_of (A.left left.new (contents_of (F.state flash.old)))) (records_of (B.left right.new (contents_of (F.state flash.old))))) }
    ensures most { A.told left.old (contents_of (F.state flash.old)) → B.told right.old (contents_of (F.state flash.old)) →
        (F.state flash.new).work.reads + left_after result (A.most left.new (contents_of (F.state flash.old)) + B.most right.new (contents_of (F.state flash.old)))
        ≤ (F.state flash.old).work.reads + (A.most left.old (contents_of (F.state flash.old)) + B.most right.old (contents_of (F.state flash.old))) }
{
    let left_key = left.row().key();
    let right_key = right.row().key();
    if left_key < right_key {
        return left.step(flash);
    }
    right.step(flash)
}

/// Goes to the next pair of rows with one key, and says whether there is one: then each input is at its row of the pair,
/// which the caller shows. Two inputs that a caller holds side by side are joined so. An error loses the row in hand, so
/// no step follows it.
pub fn next_pair<F: Flash, A: Rows<F>, B: Rows<F>>(
    left: &mut A,
    right: &mut B,
    flash: &mut F,
) -> Result<bool, ReadFault>
    requires left { A.ready left.old (contents_of (F.state flash.old)) }
    requires right { B.ready right.old (contents_of (F.state flash.old)) }
    ensures reads_only { OnlyReads (F.state flash.old) (F.state flash.new) }
    ensures cause { IfErr result (λ fault. IsCaused (F.state flash.old) fault (F.state flash.new)) }
    ensures bad_page { (bad : BadPage) → result ≡ Err (ReadFault.BadPage bad) → A.passes left.old (contents_of (F.state flash.old)) bad ⊎ B.passes right.old (contents_of (F.state flash.old)) bad }
    ensures left { Continues A.names A.schema A.above A.ready A.told A.passes (contents_of (F.state flash.old)) left.old left.new }
    ensures right { Continues B.names B.schema B.above B.ready B.told B.passes (contents_of (F.state flash.old)) right.old right.new }
    ensures left_sound { OnOk result (A.sound left.new (contents_of (F.state flash.old)) → A.sound left.old (contents_of (F.state flash.old))) }
    ensures right_sound { OnOk result (B.sound right.new (contents_of (F.state flash.old)) → B.sound right.old (contents_of (F.state flash.old))) }
    ensures all_sound { IfOk result (λ more. OnFalse more (A.sound left.old (contents_of (F.state flash.old)) ⊎ B.sound right.old (contents_of (F.state flash.old)))) }
    ensures here { IfOk result (λ more. OnTrue more ((A.here left.new ≡ true) × (B.here right.new ≡ true))) }
    ensures steps { A.told left.old (contents_of (F.state flash.old)) → B.told right.old (contents_of (F.state flash.old)) →
        StepsOver result (key_join (records_of (A.left left.old (contents_of (F.state flash.old)))) (records_of (B.left right.old (contents_of (F.state flash.old)))))
        (pair_of (A.present left.new) (B.present right.new))
        (key_join (records_of (A.left left.new (contents_of (F.state flash.old)))) (records_of (B.left right.new (contents_of (F.state flash.old))))) }
    ensures most { A.told left.old (contents_of (F.state flash.old)) → B.told right.old (contents_of (F.state flash.old)) →
        (F.state flash.new).work.reads + left_after result (A.most left.new (contents_of (F.state flash.old)) + B.most right.new (contents_of (F.state flash.old)))
        ≤ (F.state flash.old).work.reads + (A.most left.old (contents_of (F.state flash.old)) + B.most right.old (contents_of (F.state flash.old))) }
{
    if !step_both(left, right, flash)? {
        return Ok(false);
    }
    while left.row().key() != right.row().key() {
        if !step_lesser(left, right, flash)? {
            return Ok(false);
        }
    }
    Ok(true)
}

/// The pairs of rows with one key, in the order of their keys.
#[derive(Drop)]
pub struct KeyJoin<A, B> {
    left: A,
    right: B,
    ended: bool,
}

impl<A: RowHere, B: RowHere> KeyJoin<A, B> {
    pub fn new(left: A, right: B) -> KeyJoin<A, B>
        ensures left { left_of result ≡ left }
        ensures right { right_of result ≡ right }
        ensures begins { has_ended result ≡ false }
    {
        KeyJoin {
            left,
            right,
            ended: false,
        }
    }

    /// The left row of the present pair, after a step that answered true.
    pub fn left(&self) -> RowRef<'_>
        requires { A.here (left_of self.now) ≡ true }
        ensures row { row_of result ≡ A.present (left_of self.now) }
        ensures schema { layout_of_row result ≡ A.schema (left_of self.now) }
    {
        self.left.row()
    }

    /// The right row of the present pair, after a step that answered true.
    pub fn right(&self) -> RowRef<'_>
        requires { B.here (right_of self.now) ≡ true }
        ensures row { row_of result ≡ B.present (right_of self.now) }
        ensures schema { layout_of_row result ≡ B.schema (right_of self.now) }
    {
        self.right.row()
    }

    /// Goes to the next pair, and says whether there is one. An error loses the row in hand, so no step follows it.
    pub fn step<F: Flash>(&mut self, flash: &mut F) -> Result<bool, ReadFault>
    where
        A: Rows<F>,
        B: Rows<F>,
        requires left { A.ready (left_of self.old) (contents_of (F.state flash.old)) }
        requires right { B.ready (right_of self.old) (contents_of (F.state flash.old)) }
        ensures reads_only { OnlyReads (F.state flash.old) (F.state flash.new) }
        ensures cause { IfErr result (λ fault. IsCaused (F.state flash.old) fault (F.state flash.new)) }
        ensures bad_page { (bad : BadPage) → result ≡ Err (ReadFault.BadPage bad) → A.passes (left_of self.old) (contents_of (F.state flash.old)) bad ⊎ B.passes (right_of self.old) (contents_of (F.state flash.old)) bad }
        ensures left { Continues A.names A.schema A.above A.ready A.told A.passes (contents_of (F.state flash.old)) (left_of self.old) (left_of self.new) }
        ensures right { Continues B.names B.schema B.above B.ready B.told B.passes (contents_of (F.state flash.old)) (right_of self.old) (right_of self.new) }
        ensures left_sound { OnOk result (A.sound (left_of self.new) (contents_of (F.state flash.old)) → A.sound (left_of self.old) (contents_of (F.state flash.old))) }
        ensures right_sound { OnOk result (B.sound (right_of self.new) (contents_of (F.state flash.old)) → B.sound (right_of self.old) (contents_of (F.state flash.old))) }
        ensures all_sound { has_ended self.old ≡ false → IfOk result (λ more. OnFalse more (A.sound (left_of self.old) (contents_of (F.state flash.old)) ⊎ B.sound (right_of self.old) (contents_of (F.state flash.old)))) }
        ensures here { IfOk result (λ more. OnTrue more ((A.here (left_of self.new) ≡ true) × (B.here (right_of self.new) ≡ true))) }
        ensures end { IfOk result (λ more. OnFalse more (has_ended self.new ≡ true)) }
        ensures stays_ended { has_ended self.old ≡ true → (result ≡ Ok false) × (F.state flash.new ≡ F.state flash.old) }
        ensures steps { A.told (left_of self.old) (contents_of (F.state flash.old)) → B.told (right_of self.old) (contents_of (F.state flash.old)) →
            StepsOver result (pairs_left self.old (A.left (left_of self.old) (contents_of (F.state flash.old))) (B.left (right_of self.old) (contents_of (F.state flash.old))))
            (pair_of (A.present (left_of self.new)) (B.present (right_of self.new)))
            (pairs_left self.new (A.left (left_of self.new) (contents_of (F.state flash.old))) (B.left (right_of self.new) (contents_of (F.state flash.old)))) }
        ensures most { A.told (left_of self.old) (contents_of (F.state flash.old)) → B.told (right_of self.old) (contents_of (F.state flash.old)) →
            (F.state flash.new).work.reads + left_after result (A.most (left_of self.new) (contents_of (F.state flash.old)) + B.most (right_of self.new) (contents_of (F.state flash.old)))
            ≤ (F.state flash.old).work.reads + (A.most (left_of self.old) (contents_of (F.state flash.old)) + B.most (right_of self.old) (contents_of (F.state flash.old))) }
    {
        if self.ended {
            return Ok(false);
        }
        if !next_pair(&mut self.left, &mut self.right, flash)? {
            self.ended = true;
            return Ok(false);
        }
        Ok(true)
    }
}
