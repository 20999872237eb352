// How many pages the rings of a table with a log keep.
ghost use Rattle.std.specs.Prelude.{◌≡◌, ◌-◌};
ghost use Rattle.fl_rlc.specs.Rings.{log_pages};

use crate::log::RecordLog;
use crate::table::LoggedTable;
use fl_table::TableRings;

/// How many pages the rings of a table keep, and how many its log keeps where it has one, the void ones among them.
#[derive(Clone, Copy, Debug, PartialEq, Eq)]
pub struct RingCounts {
    pub table: TableRings,
    pub log: Option<u32>,
}

impl RecordLog {
    ghost use Rattle.fl_rlc.specs.Memory.{next_in, oldest_in};

    /// How many pages are kept, the void ones among them. A log that isn't mounted keeps none.
    fn pages(&self) -> u32
        ensures { result ≡ next_in self.now - oldest_in self.now }
    {
        match &self.ring {
            Some(ring) => ring.next_number() - ring.oldest(),
            None => 0,
        }
    }
}

fn log_pages(log: &Option<RecordLog>) -> Option<u32>
    ensures { result ≡ log_pages log.now }
{
    match log {
        Some(log) => Some(log.pages()),
        None => None,
    }
}

impl<const KNOTS: usize, const SLOTS: usize> LoggedTable<KNOTS, SLOTS> {
    ghost use Rattle.std.specs.Prelude.{ℕ};
    ghost use Rattle.fl_flash.specs.Flash.{FlashState};
    ghost use Rattle.fl_model.specs.Record.{Plan};
    ghost use Rattle.fl_model.specs.Table as model;
    ghost use Rattle.fl_rlc.specs.Logged.{Stands};
    ghost use Rattle.fl_rlc.specs.Rings.{rings_in, rings_of};

    /// How many pages each of its rings keeps. A ring that isn't mounted keeps none. No page is read.
    pub fn rings(&self) -> RingCounts
        ensures exact { result ≡ rings_in self.now }
        ensures stands { (f : FlashState) → (first : ℕ) → (plan : Plan) → (table : model.Table) → Stands self.now f first plan table → result ≡ rings_of table }
    {
        RingCounts {
            table: self.table.rings(),
            log: log_pages(&self.log),
        }
    }
}
