// Why a table with a log refuses a record.
ghost use Rattle.std.specs.Prelude.{◌≡◌, length, option_map};
ghost use Rattle.fl_rlc.specs.Refusal.{log_refused};

use crate::log::RecordLog;
use crate::table::LoggedTable;
use fl_table::PutRefusal;

/// The first page number at which puts are refused: what is above it is left to mounts.
const SPENT_FROM: u32 = 4_294_901_760;

/// A log without a page number left takes no record.
fn log_refused(log: &Option<RecordLog>) -> Option<PutRefusal>
    ensures { result ≡ log_refused log.now }
{
    match log {
        Some(log) => (log.next_number() >= SPENT_FROM).then_some(PutRefusal::Spent),
        None => None,
    }
}

impl<const KNOTS: usize, const SLOTS: usize> LoggedTable<KNOTS, SLOTS> {
    ghost use Rattle.fl_rlc.specs.Refusal.{put_refusal};

    /// The first refusal of a record that applies, if one does: the table's, and then that of its log.
    pub fn refusal(&self, key: u64, values: &[i64], blob: Option<&[u8]>) -> Option<PutRefusal>
        ensures { result ≡ put_refusal self.now key values.now (option_map (λ b. length b.now) blob.entry) }
    {
        let refused = self.table.refusal(key, values, blob);
        if refused.is_some() {
            return refused;
        }
        log_refused(&self.log)
    }
}
