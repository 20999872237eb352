// Groups as lines.
ghost use Rattle.std.specs.Prelude.{◌≡◌, map};
ghost use Rattle.std.specs.List.{AllByRecursion};
ghost use Rattle.fl_words.specs.Reply.{text};
ghost use Rattle.fl_script.specs.ReplyView.{reply_text};
ghost use Rattle.fl_machine.specs.Step.{group_reply};
ghost use Rattle.fl_queries.specs.ListSays.{IsGroup};
ghost use Rattle.fl_ops.specs.Groups.{input_of, groups_left, group_in};

use crate::reply_lines::ReplyLines;
use crate::rows::RowForm;
use fl_base::{Sink, SinkFailed};
use fl_flash::Flash;
use fl_ops::{Aggregate, Group};
use fl_page::{ReadFault, RowHere, Rows};
use fl_script::{Reply, RowLine, write_reply};

/// What stands in place of a group before the first one.
pub(crate) const NO_GROUP: Group = Group {
    group: 0,
    count: 0,
    least: 0,
    greatest: 0,
    sum: 0,
    mean: 0,
};

/// Groups of rows, and the one that was made last.
#[derive(Drop)]
pub(crate) struct GroupLines<R: RowHere> {
    pub(crate) groups: Aggregate<R>,
    pub(crate) present: Group,
}

/// The line of a group.
fn group_line(group: Group) -> Reply
    ensures { reply_text result ≡ text (group_reply (group_in group)) }
{
    Reply::Group {
        group: group.group,
        count: group.count,
        least: group.least,
        greatest: group.greatest,
        sum: group.sum,
        mean: group.mean,
    }
}

impl<F: Flash, R: Rows<F>> ReplyLines<F> for GroupLines<R> {
    ghost names = { λ lines. R.names (input_of lines.groups) };

    ghost ready = { λ lines. R.ready (input_of lines.groups) };

    ghost fits = { λ lines form. Unit {0} };

    ghost told = { λ lines. R.told (input_of lines.groups) };

    ghost here = { λ lines. Unit {0} };

    ghost present = { λ lines form. group_reply (group_in lines.present) };

    ghost made = { λ form first lines. AllByRecursion IsGroup };

    ghost made_none = { λ form lines. tt };

    ghost passes = { λ lines. R.passes (input_of lines.groups) };

    ghost sound = { λ lines. R.sound (input_of lines.groups) };

    ghost lines = { λ lines form contents. map group_reply (groups_left lines.groups (R.present (input_of lines.groups)) (R.left (input_of lines.groups) contents)) };

    ghost most = { λ lines. R.most (input_of lines.groups) };

    ghost least = { λ lines. R.least (input_of lines.groups) };

    fn next_line(&mut self, flash: &mut F) -> Result<bool, ReadFault> {
        match self.groups.step(flash)? {
            Some(group) => {
                self.present = group;
                Ok(true)
            }
            None => Ok(false),
        }
    }

    fn show_line<K: Sink>(
        &self,
        _form: RowForm,
        _line: &mut RowLine,
        out: &mut K,
    ) -> Result<(), SinkFailed> {
        write_reply(&group_line(self.present), out)
    }
}
