// What the operators list of a table of a session.
ghost use Rattle.fl_base.specs.Causes.{HasCause};
ghost use Rattle.fl_flash.specs.Flash.{Goes};
ghost use Rattle.fl_model.specs.Record.{Config};
ghost use Rattle.fl_words.specs.Command as words;
ghost use Rattle.fl_machine.specs.Machine.{Machine};
ghost use Rattle.fl_session.specs.Caused.{Caused};
ghost use Rattle.fl_session.specs.Execute.{Executes};
ghost use Rattle.fl_session.specs.Operated.{command_by};
ghost use Rattle.fl_queries.specs.Operators.{IsFit};

use super::Session;
use crate::executor::Executor;
use fl_base::{KeyRange, Name, Sink, SinkFailed};
use fl_flash::{Flash, Media, SimFlash};
use fl_queries::{Operator, join, lacked, operate};
use fl_script::{Reply, write_reply};

impl<'m, M: Media> Session<'m, M> {
    /// Lists what an operator makes of the rows of a range, and the number of its lines.
    pub(super) fn operate<K: Sink>(
        &mut self,
        name: Name,
        range: KeyRange,
        operator: Operator<'_>,
        out: &mut K,
    ) -> Result<(), SinkFailed>
        requires sound { ⟦<Self as Executor>⟧.sound self.old }
        requires fit { IsFit operator }
        ensures cause { Caused (command_by operator.entry name range) (⟦<Self as Executor>⟧.state self.old) (⟦<Self as Executor>⟧.state self.new)
            (K.written out.old) (K.written out.new) result }
        ensures sound { ⟦<Self as Executor>⟧.sound self.new }
        ensures goes { Goes (⟦<Self as Executor>⟧.flash self.old) (⟦<Self as Executor>⟧.flash self.new) }
        ensures sink { HasCause (K.faults out.old) (K.faults out.new) result }
        ensures step { (config : Config) (old : Machine) → ⟦<Self as Executor>⟧.stands self.old config old →
            Executes config old (command_by operator.entry name range) (⟦<Self as Executor>⟧.stands self.new config)
            (⟦<Self as Executor>⟧.flash self.old) (⟦<Self as Executor>⟧.flash self.new) (K.written out.old) (K.written out.new) result }
    {
        let at = match self.find(name) {
            Ok(at) => at,
            Err(refusal) => return write_reply(&refusal, out),
        };
        let table = self.tables.entries[at].table.table();
        if let Some(column) = lacked(table, operator) {
            return write_reply(&Reply::NoColumn { column }, out);
        }
        // The reads of this command are a difference of two counts, of which this is the first.
        let _before = self.flash.work();
        operate(table, range, operator, &mut self.flash, &mut self.buf, out)
    }

    /// Lists the pairs of rows of two tables that have one key in the range, and their number.
    pub(super) fn join<K: Sink>(
        &mut self,
        left: Name,
        right: Name,
        range: KeyRange,
        out: &mut K,
    ) -> Result<(), SinkFailed>
        requires sound { ⟦<Self as Executor>⟧.sound self.old }
        ensures cause { Caused (words.Join left right range) (⟦<Self as Executor>⟧.state self.old) (⟦<Self as Executor>⟧.state self.new)
            (K.written out.old) (K.written out.new) result }
        ensures sound { ⟦<Self as Executor>⟧.sound self.new }
        ensures goes { Goes (⟦<Self as Executor>⟧.flash self.old) (⟦<Self as Executor>⟧.flash self.new) }
        ensures sink { HasCause (K.faults out.old) (K.faults out.new) result }
        ensures step { (config : Config) (old : Machine) → ⟦<Self as Executor>⟧.stands self.old config old →
            Executes config old (words.Join left right range) (⟦<Self as Executor>⟧.stands self.new config)
            (⟦<Self as Executor>⟧.flash self.old) (⟦<Self as Executor>⟧.flash self.new) (K.written out.old) (K.written out.new) result }
    {
        let left_at = match self.find(left) {
            Ok(at) => at,
            Err(refusal) => return write_reply(&refusal, out),
        };
        let right_at = match self.find(right) {
            Ok(at) => at,
            Err(refusal) => return write_reply(&refusal, out),
        };
        let left_table = self.tables.entries[left_at].table.table();
        let right_table = self.tables.entries[right_at].table.table();
        // The reads of this command are a difference of two counts, of which this is the first.
        let _before = self.flash.work();
        join(
            left_table,
            right_table,
            range,
            &mut self.flash,
            &mut self.buf,
            out,
        )
    }
}
