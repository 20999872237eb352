// What is pending in a session.
ghost use Rattle.std.specs.Prelude.{◌≡◌, slice_get};
ghost use Rattle.fl_model.specs.Record.{Config};
ghost use Rattle.fl_machine.specs.Machine.{Machine};
ghost use Rattle.fl_session.specs.Pending.{pending_of};
ghost use Rattle.fl_session.specs.Told.{pending_at};

use super::Session;
use crate::executor::Executor;
use fl_ends::TableRows;
use fl_flash::Media;

impl<'m, M: Media> Session<'m, M> {
    /// The table at a place, if rows of it are pending; none in a session that isn't mounted.
    pub(super) fn pending_at(&self, at: usize) -> Option<TableRows>
        ensures holds { (config : Config) (m : Machine) → ⟦<Self as Executor>⟧.stands self.now config m →
            result ≡ pending_of (slice_get config.plans at) (slice_get m.tables at) }
        ensures cause { result ≡ pending_at (⟦<Self as Executor>⟧.state self.now) at }
    {
        if !self.mounted {
            return None;
        }
        if at >= self.tables.entries.len() {
            return None;
        }
        let entry = &self.tables.entries[at];
        let rows = entry.table.table().pending_rows();
        if rows == 0 {
            return None;
        }
        Some(TableRows {
            name: entry.name,
            rows,
        })
    }
}
