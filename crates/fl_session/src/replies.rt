// The replies to the calls of a table.
ghost use Rattle.std.specs.Prelude.{◌≡◌};
ghost use Rattle.fl_words.specs.Reply.{text};
ghost use Rattle.fl_script.specs.ReplyView.{reply_text};
ghost use Rattle.fl_machine.specs.Step as step;
ghost use Rattle.fl_session.specs.Answer as said;
ghost use Rattle.fl_session.specs.Cost.{cost_of};
ghost use Rattle.fl_table.specs.Causes as causes;

use crate::cost::Cost;
use fl_script::Reply;
use fl_store::{BadMount, fault_reply};
use fl_table::{FlushFault, MountFault, PutRefusal};

/// Whether an operation failed in a put.
pub(crate) fn put_breaks(outcome: &Result<(), PutRefusal>) -> bool
    ensures { result ≡ causes.put_breaks outcome.now }
{
    matches!(outcome, Err(PutRefusal::Flash(_)))
}

pub(crate) fn flush_breaks(outcome: &Result<(), FlushFault>) -> bool
    ensures { result ≡ causes.flush_breaks outcome.now }
{
    matches!(outcome, Err(FlushFault::Flash(_)))
}

pub(crate) fn mount_reply(outcome: Result<(), BadMount>) -> Reply
    ensures { reply_text result ≡ text (said.mount_reply outcome) }
{
    let Err(BadMount { at: _, name, fault }) = outcome else {
        return Reply::Done;
    };
    match fault {
        MountFault::Flash(fault) => fault_reply(fault),
        _ => Reply::BadImage { name },
    }
}

pub(crate) fn cost_reply(cost: Cost) -> Reply
    ensures { reply_text result ≡ text (step.cost_reply (cost_of cost)) }
{
    match cost {
        Cost::NothingYet => Reply::NoCost,
        Cost::OfGet { reads, limit } => Reply::CostGet { reads, limit },
        Cost::OfScan { reads } => Reply::CostScan { reads },
    }
}
