// The cursors of a session.
ghost use Rattle.std.specs.Prelude.{◌≡◌, ◌<◌};
ghost use Rattle.fl_base.specs.Causes.{HasCause};
ghost use Rattle.fl_flash.specs.Flash.{Goes};
ghost use Rattle.fl_model.specs.Record.{Config};
ghost use Rattle.fl_words.specs.Command as words;
ghost use Rattle.fl_machine.specs.Machine.{Machine};
ghost use Rattle.fl_script.specs.ReplyView.{reply_text};
ghost use Rattle.fl_session.specs.Answer.{Answers};
ghost use Rattle.fl_queries.specs.LookSays.{Says};
ghost use Rattle.fl_session.specs.Caused.{Caused, CloseSays, OnTable, OpenSays};
ghost use Rattle.fl_session.specs.Execute.{Executes};

use super::Session;
use crate::executor::Executor;
use crate::notes::TableCursor;
use fl_base::{KeyRange, Name, Sink, SinkFailed, Span};
use fl_flash::{Flash, Media, SimFlash};
use fl_queries::{next_rows, open_cursor};
use fl_script::{Reply, write_reply};

impl<'m, M: Media> Session<'m, M> {
    /// Opens a cursor over the rows that are asked for.
    pub(super) fn open(
        &mut self,
        cursor: u64,
        name: Name,
        range: KeyRange,
        span: Option<Span>,
    ) -> Reply
        requires sound { ⟦<Self as Executor>⟧.sound self.old }
        requires cursor { cursor < 4 }
        ensures cause { Says (reply_text result) (OnTable (⟦<Self as Executor>⟧.state self.old) (⟦<Self as Executor>⟧.state self.new) name (OpenSays (⟦<Self as Executor>⟧.state self.old) (⟦<Self as Executor>⟧.state self.new) cursor range span)) }
        ensures sound { ⟦<Self as Executor>⟧.sound self.new }
        ensures goes { Goes (⟦<Self as Executor>⟧.flash self.old) (⟦<Self as Executor>⟧.flash self.new) }
        ensures reads { (⟦<Self as Executor>⟧.flash self.new).work.reads ≡ (⟦<Self as Executor>⟧.flash self.old).work.reads }
        ensures step { (config : Config) (old : Machine) → ⟦<Self as Executor>⟧.stands self.old config old →
            Answers config old (words.Open cursor name range span) (⟦<Self as Executor>⟧.stands self.new config)
            (⟦<Self as Executor>⟧.flash self.old) (⟦<Self as Executor>⟧.flash self.new) (reply_text result) }
    {
        let at = match self.find(name) {
            Ok(at) => at,
            Err(refusal) => return refusal,
        };
        let table = self.tables.entries[at].table.table();
        let mark = open_cursor(table, range, span, &mut self.buf);
        self.notes
            .set_cursor(cursor, Some(TableCursor { table: at, mark }));
        Reply::Done
    }

    /// Closes a cursor.
    pub(super) fn close(&mut self, cursor: u64) -> Reply
        requires sound { ⟦<Self as Executor>⟧.sound self.old }
        requires cursor { cursor < 4 }
        ensures cause { Says (reply_text result) (CloseSays (⟦<Self as Executor>⟧.state self.old) (⟦<Self as Executor>⟧.state self.new) cursor) }
        ensures sound { ⟦<Self as Executor>⟧.sound self.new }
        ensures goes { Goes (⟦<Self as Executor>⟧.flash self.old) (⟦<Self as Executor>⟧.flash self.new) }
        ensures reads { (⟦<Self as Executor>⟧.flash self.new).work.reads ≡ (⟦<Self as Executor>⟧.flash self.old).work.reads }
        ensures step { (config : Config) (old : Machine) → ⟦<Self as Executor>⟧.stands self.old config old →
            Answers config old (words.Close cursor) (⟦<Self as Executor>⟧.stands self.new config)
            (⟦<Self as Executor>⟧.flash self.old) (⟦<Self as Executor>⟧.flash self.new) (reply_text result) }
    {
        if !self.mounted {
            return Reply::NotMounted;
        }
        if self.notes.cursor(cursor).is_none() {
            return Reply::NoCursor;
        }
        self.notes.set_cursor(cursor, None);
        Reply::Done
    }

    /// Tells the next rows of a cursor, up to so many, and moves it behind those that it told.
    pub(super) fn next<K: Sink>(
        &mut self,
        cursor: u64,
        count: u64,
        out: &mut K,
    ) -> Result<(), SinkFailed>
        requires sound { ⟦<Self as Executor>⟧.sound self.old }
        requires cursor { cursor < 4 }
        ensures cause { Caused (words.Next cursor count) (⟦<Self as Executor>⟧.state self.old) (⟦<Self as Executor>⟧.state self.new)
            (K.written out.old) (K.written out.new) result }
        ensures sound { ⟦<Self as Executor>⟧.sound self.new }
        ensures goes { Goes (⟦<Self as Executor>⟧.flash self.old) (⟦<Self as Executor>⟧.flash self.new) }
        ensures sink { HasCause (K.faults out.old) (K.faults out.new) result }
        ensures step { (config : Config) (old : Machine) → ⟦<Self as Executor>⟧.stands self.old config old →
            Executes config old (words.Next cursor count) (⟦<Self as Executor>⟧.stands self.new config)
            (⟦<Self as Executor>⟧.flash self.old) (⟦<Self as Executor>⟧.flash self.new) (K.written out.old) (K.written out.new) result }
    {
        if !self.mounted {
            return write_reply(&Reply::NotMounted, out);
        }
        let Some(mut open) = self.notes.cursor(cursor) else {
            return write_reply(&Reply::NoCursor, out);
        };
        // Its call tells the proof that the count of reads is within its bounds.
        let _before = self.flash.work();
        let written = next_rows(
            self.tables.entries[open.table].table.table(),
            &mut open.mark,
            count,
            &mut self.flash,
            &mut self.buf,
            out,
        );
        self.notes.set_cursor(cursor, Some(open));
        written
    }
}
