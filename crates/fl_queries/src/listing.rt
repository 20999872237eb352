// Why lines aren't listed to the end.
ghost use Rattle.std.specs.Prelude.{◌≡◌, ◌≤◌, ℕ};
ghost use Rattle.fl_base.specs.Causes.{HasCause, Rose};
ghost use Rattle.fl_queries.specs.Listed.{IfSink, SaysFault};

use fl_base::{Sink, SinkFailed};
use fl_page::ReadFault;
use fl_script::{Reply, write_reply};

/// Why lines aren't listed to the end.
#[derive(Clone, Copy, Debug)]
pub enum ListFault {
    Sink(SinkFailed),
    Read(ReadFault),
}

impl From<SinkFailed> for ListFault {
    ghost use Rattle.fl_queries.specs.declared.listing.ListFault.{ListFault};

    ghost from_gives = { λ failed fault. fault ≡ ListFault.Sink failed };

    fn from(failed: SinkFailed) -> ListFault {
        ListFault::Sink(failed)
    }
}

impl From<ReadFault> for ListFault {
    ghost use Rattle.fl_queries.specs.declared.listing.ListFault.{ListFault};

    ghost from_gives = { λ failed fault. fault ≡ ListFault.Read failed };

    fn from(failed: ReadFault) -> ListFault {
        ListFault::Read(failed)
    }
}

/// Writes why a page wasn't read. A sink that failed is asked for nothing more.
pub(crate) fn write_fault<K: Sink>(fault: ListFault, out: &mut K) -> Result<(), SinkFailed>
    ensures says { SaysFault fault (K.written out.old) (K.written out.new) result }
    ensures cause { (faults : ℕ) → faults ≤ K.faults out.old → IfSink fault (Rose faults (K.faults out.old)) → HasCause faults (K.faults out.new) result }
{
    match fault {
        ListFault::Sink(failed) => Err(failed),
        ListFault::Read(ReadFault::Flash(_)) => write_reply(&Reply::ReadFault, out),
        ListFault::Read(ReadFault::BadPage(bad)) => {
            let number = bad.wanted;
            write_reply(&Reply::BadPage { number }, out)
        }
    }
}
