// Rows that are lent one after another.
ghost use Rattle.std.specs.Prelude.{◌≡◌, ◌+◌, ◌-◌, ◌^◌, ◌<◌, ◌≤◌, ◌↔◌, ℕ, Bool, true, false, List, Option, Some, Ok, Err, OnOk, IfOk, IfErr};
ghost use Rattle.std.specs.Bool.{OnTrue, OnFalse};
ghost use Rattle.std.specs.Borrow.{GName};
ghost use Rattle.fl_model.specs.Record.{RowLayout};
ghost use Rattle.fl_model.specs.Row.{Row};
ghost use Rattle.fl_model.specs.Query.{is_above};
ghost use Rattle.fl_flash.specs.Flash.{FlashState};
ghost use Rattle.fl_schema.specs.Schema.{layout_of_row, row_of};
ghost use Rattle.fl_frame.specs.Contents.{Contents, contents_of, OnlyReads};
ghost use Rattle.fl_page.specs.Causes.{IsCaused};
ghost use Rattle.fl_page.specs.Steps.{Steps, Ascends, left_after};
ghost use Rattle.fl_page.specs.declared.fault.BadPage.{BadPage};

use crate::ReadFault;
use fl_flash::Flash;
use fl_schema::RowRef;

/// Lends the present row.
pub trait RowHere {
    /// Whether there is a row.
    ghost here: { Self → Bool };

    /// The present row.
    ghost present: { Self → Row };

    /// What the rows are made of.
    ghost schema: { Self → RowLayout };

    /// The key above which the next row lies.
    ghost above: { Self → Option ℕ };

    /// The present row, after a step that answered true.
    fn row(&self) -> RowRef<'_>
        requires { here self.now ≡ true }
        ensures row { row_of result ≡ present self.now }
        ensures schema { layout_of_row result ≡ schema self.now };
}

/// Gives rows in the order of their keys, over a flash that it only reads.
pub trait Rows<F: Flash>: RowHere {
    /// The names of the references that it holds.
    ghost names: { Self → List GName };

    /// Whether it can go over a flash that holds this.
    ghost ready: { Self → Contents → Type 0 };

    /// Whether the rows left are told over a flash that holds this.
    ghost told: { Self → Contents → Type 0 };

    /// The rows left.
    ghost left: { Self → Contents → List Row };

    /// Whether the last row was given.
    ghost ended: { Self → Bool };

    /// Whether a step may answer this bad page.
    ghost passes: { Self → Contents → BadPage → Type 0 };

    /// Whether no page that they read from now on, up to the last row, is bad in a flash that holds this.
    ghost sound: { Self → Contents → Type 0 };

    /// How many reads all steps to come make at most, up to the first that fails, and how many at least where none fails.
    ghost most: { Self → Contents → ℕ };

    ghost least: { Self → Contents → ℕ };

    /// Goes to the next row, and says whether there is one.
    fn step(&mut self, flash: &mut F) -> Result<bool, ReadFault>
        requires { ready self.old (contents_of (F.state flash.old)) }
        ensures reads_only { OnlyReads (F.state flash.old) (F.state flash.new) }
        ensures cause { IfErr result (λ fault. IsCaused (F.state flash.old) fault (F.state flash.new)) }
        ensures names { names self.new ≡ names self.old }
        ensures schema { Self.schema self.new ≡ Self.schema self.old }
        ensures stays_ready { (contents : Contents) → ready self.old contents → ready self.new contents }
        ensures here { IfOk result (λ more. Self.here self.new ≡ more) }
        ensures key { IfOk result (λ more. OnTrue more ((Self.above self.new ≡ Some (Self.present self.new).key)
            × (is_above (Self.above self.old) (Self.present self.new).key ≡ true) × ((Self.present self.new).key < 2 ^ 64))) }
        ensures never_falls { (key : ℕ) → is_above (Self.above self.new) key ≡ true → is_above (Self.above self.old) key ≡ true }
        ensures end { IfOk result (λ more. OnFalse more (ended self.new ≡ true)) }
        ensures stays_ended { ended self.old ≡ true → (result ≡ Ok false) × (F.state flash.new ≡ F.state flash.old) }
        ensures bad_page { (bad : BadPage) → result ≡ Err (ReadFault.BadPage bad) → passes self.old (contents_of (F.state flash.old)) bad }
        ensures same_test { (contents : Contents) (bad : BadPage) → passes self.new contents bad ↔ passes self.old contents bad }
        ensures sound { OnOk result (sound self.new (contents_of (F.state flash.old)) → sound self.old (contents_of (F.state flash.old))) }
        ensures all_sound { IfOk result (λ more. OnFalse more (sound self.old (contents_of (F.state flash.old)))) }
        ensures stays_told { told self.old (contents_of (F.state flash.old)) → told self.new (contents_of (F.state flash.old)) }
        ensures steps { told self.old (contents_of (F.state flash.old)) →
            Steps result (left self.old (contents_of (F.state flash.old))) (Self.present self.new) (left self.new (contents_of (F.state flash.old))) }
        ensures most { told self.old (contents_of (F.state flash.old)) →
            (F.state flash.new).work.reads + left_after result (most self.new (contents_of (F.state flash.old))) ≤ (F.state flash.old).work.reads + most self.old (contents_of (F.state flash.old)) }
        ensures least { told self.old (contents_of (F.state flash.old)) → (F.state flash.new).work.reads < 2 ^ 64 - 1 →
            OnOk result ((F.state flash.old).work.reads + least self.old (contents_of (F.state flash.old)) ≤ (F.state flash.new).work.reads + least self.new (contents_of (F.state flash.old))) }
        ensures none_left { told self.old (contents_of (F.state flash.old)) → IfOk result (λ more. OnFalse more (least self.new (contents_of (F.state flash.old)) ≡ 0)) };

    /// The rows left come in the order of their keys, above the last one given.
    ghost ascends: { (rows : Self) (contents : Contents) → told rows contents → Ascends (Self.above rows) (left rows contents) };
}
