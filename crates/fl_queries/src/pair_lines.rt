// Pairs of rows as lines.
ghost use Rattle.std.specs.Prelude.{◌≡◌, ◌⊎◌, ◌+◌, ◌≤◌, ◌++◌, true, length};
ghost use Rattle.std.specs.List.{AllByRecursion};
ghost use Rattle.fl_machine.specs.Step.{pair_reply};
ghost use Rattle.fl_ops.specs.Pairs.{pair_of};
ghost use Rattle.fl_schema.specs.Schema.{layout_of_row, row_of};
ghost use Rattle.fl_script.specs.ReplyView.{reply_text};
ghost use Rattle.fl_words.specs.Reply.{text};
ghost use Rattle.fl_queries.specs.ListSays.{IsPair};
ghost use Rattle.fl_queries.specs.Paired.{pair_lines};

use crate::reply_lines::ReplyLines;
use crate::rows::RowForm;
use fl_base::{Sink, SinkFailed};
use fl_flash::Flash;
use fl_ops::{next_pair, values_of};
use fl_page::{ReadFault, RowHere, Rows};
use fl_schema::RowRef;
use fl_script::{Reply, RowLine, write_reply};

/// Two inputs whose rows with one key are listed in pairs, and how many columns the rows of each have.
#[derive(Drop)]
pub(crate) struct PairLines<A: RowHere, B: RowHere> {
    pub(crate) left: A,
    pub(crate) right: B,
    pub(crate) columns: (usize, usize),
}

/// The line of a pair of rows, which have so many columns.
fn pair_line(left: &RowRef<'_>, right: &RowRef<'_>, columns: (usize, usize)) -> Reply
    requires left { columns.0 ≡ length (layout_of_row left.now).columns }
    requires few_left { columns.0 ≤ 8 }
    requires right { columns.1 ≡ length (layout_of_row right.now).columns }
    requires few_right { columns.1 ≤ 8 }
    ensures { reply_text result ≡ text (pair_reply (pair_of (row_of left.now) (row_of right.now))) }
{
    Reply::Pair {
        key: left.key(),
        left: values_of(left, columns.0),
        right: values_of(right, columns.1),
    }
}

impl<F: Flash, A: Rows<F>, B: Rows<F>> ReplyLines<F> for PairLines<A, B> {
    ghost names = { λ pairs. A.names pairs.left ++ B.names pairs.right };

    ghost ready = { λ pairs contents. A.ready pairs.left contents × B.ready pairs.right contents };

    ghost fits = { λ pairs form. ((pairs.columns.0 ≡ length (A.schema pairs.left).columns) × (pairs.columns.0 ≤ 8)) × ((pairs.columns.1 ≡ length (B.schema pairs.right).columns) × (pairs.columns.1 ≤ 8)) };

    ghost told = { λ pairs contents. A.told pairs.left contents × B.told pairs.right contents };

    ghost here = { λ pairs. (A.here pairs.left ≡ true) × (B.here pairs.right ≡ true) };

    ghost present = { λ pairs form. pair_reply (pair_of (A.present pairs.left) (B.present pairs.right)) };

    ghost made = { λ form first pairs. AllByRecursion IsPair };

    ghost made_none = { λ form pairs. tt };

    ghost passes = { λ pairs contents bad. A.passes pairs.left contents bad ⊎ B.passes pairs.right contents bad };

    ghost sound = { λ pairs contents. A.sound pairs.left contents ⊎ B.sound pairs.right contents };

    ghost lines = { λ pairs form contents. pair_lines (A.left pairs.left contents) (B.left pairs.right contents) };

    ghost most = { λ pairs contents. A.most pairs.left contents + B.most pairs.right contents };

    ghost least = { λ pairs contents. 0 };

    fn next_line(&mut self, flash: &mut F) -> Result<bool, ReadFault> {
        next_pair(&mut self.left, &mut self.right, flash)
    }

    fn show_line<K: Sink>(
        &self,
        _form: RowForm,
        _line: &mut RowLine,
        out: &mut K,
    ) -> Result<(), SinkFailed> {
        let line = pair_line(&self.left.row(), &self.right.row(), self.columns);
        write_reply(&line, out)
    }
}
