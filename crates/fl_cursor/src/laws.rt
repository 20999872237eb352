// What a cursor is, in the model's words.
ghost use Rattle.std.specs.Prelude.{◌≡◌, ◌≤◌, ◌+◌, ℕ, IsTrue, length, map};
ghost use Rattle.fl_flash.specs.Flash.{FlashState};
ghost use Rattle.fl_flash.specs.Places.{extent};
ghost use Rattle.fl_model.specs.Query as query;
ghost use Rattle.fl_model.specs.Record.{Plan};
ghost use Rattle.fl_model.specs.Row.{stored_row};
ghost use Rattle.fl_model.specs.Table as model;
ghost use Rattle.fl_frame.specs.Contents.{contents_of};
ghost use Rattle.fl_table.specs.Memory.{LiesOn};
ghost use Rattle.fl_table.specs.Standing.{Stands};
ghost use Rattle.fl_cursor.specs.Cursor.{table_of, asked_of, left_of};
ghost use Rattle.fl_cursor.specs.Retried.{ReadOnceForEachFault};

use crate::Cursor;

/// The rows that a cursor has left are those that the cursor of the model has left, in the table as it is now.
pub fn cursor_is_the_models<const KNOTS: usize, const SLOTS: usize>(
    cursor: &Cursor<'_, '_, '_, KNOTS, SLOTS>,
)
    ensures left { (f : FlashState) → (first : ℕ) → (plan : Plan) → (t : model.Table) → IsTrue f.media.tells → f.start + extent f.geometry f.blocks ≤ length f.media.content →
        LiesOn (table_of cursor.now) f → Stands (table_of cursor.now) f first plan t → left_of cursor.now (contents_of f) ≡ map stored_row (query.left_of (asked_of cursor.now) t.entries) }
{}

/// Each step of a cursor that fails costs its limit on reads once more at most: whatever steps follow one another, their reads are
/// together at most the limit that it began with, and as many again for each step that failed.
pub fn faults_read_once()
    ensures { ReadOnceForEachFault }
{}
