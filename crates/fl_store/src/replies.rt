// The replies to the calls of a table.
ghost use Rattle.std.specs.Prelude.{◌≡◌};
ghost use Rattle.fl_words.specs.Reply.{text};
ghost use Rattle.fl_script.specs.ReplyView.{reply_text};
ghost use Rattle.fl_store.specs.Replies as said;

use fl_flash::FlashFault;
use fl_script::Reply;
use fl_table::{FlushFault, PutRefusal};

/// The reply to a command in which an operation of the flash failed: `power lost` or `device fault`.
pub fn fault_reply(fault: FlashFault) -> Reply
    ensures { reply_text result ≡ text (said.fault_reply fault) }
{
    match fault {
        FlashFault::PowerLost => Reply::PowerLost,
        FlashFault::Media => Reply::DeviceFault,
    }
}

/// The reply to a put: `ok`; `refused` with its reason, where nothing changed; `not mounted` where an earlier operation of this
/// table failed; or the reply of the operation that failed in this put.
pub fn put_reply(outcome: Result<(), PutRefusal>) -> Reply
    ensures { reply_text result ≡ text (said.put_reply outcome) }
{
    match outcome {
        Ok(()) => Reply::Done,
        Err(PutRefusal::Key { last }) => Reply::RefusedKey { last },
        Err(PutRefusal::Columns { wanted }) => Reply::RefusedColumns { wanted },
        Err(PutRefusal::Value { column }) => Reply::RefusedValue { column },
        Err(PutRefusal::Blob { limit }) => Reply::RefusedBlob { limit },
        Err(PutRefusal::Spent) => Reply::RefusedSpent,
        Err(PutRefusal::Stopped) => Reply::NotMounted,
        Err(PutRefusal::Flash(fault)) => fault_reply(fault),
    }
}

/// The reply to a flush: `ok`, `not mounted` where an earlier operation of this table failed, or the reply of the operation that
/// failed in this flush.
pub fn flush_reply(outcome: Result<(), FlushFault>) -> Reply
    ensures { reply_text result ≡ text (said.flush_reply outcome) }
{
    match outcome {
        Ok(()) => Reply::Done,
        Err(FlushFault::Stopped) => Reply::NotMounted,
        Err(FlushFault::Flash(fault)) => fault_reply(fault),
    }
}
