// The plan of a configuration.
ghost use Rattle.std.specs.Prelude.{◌≡◌, ◌≤◌, false, IfSome};
ghost use Rattle.fl_command.specs.Plan.{PlanEndsAs};

use crate::{Ending, Exit};
use fl_base::{Sink, Source};
use fl_sizing::{PlanJob, plan_tables};
use std::alloc::Global;

/// Plans the tables of the lines that are read, and hands out beside the end why a line is refused. There is no image.
pub fn plan<S: Source, K: Sink>(alloc: Global, job: PlanJob, input: &mut S, out: &mut K) -> Ending
    requires { IfSome job.interval (λ seconds. seconds ≤ 1000000) }
    ensures ends { PlanEndsAs job.interval (S.left input.old) (S.faults input.old) (K.written out.old) (K.faults out.old)
        (S.left input.new) (S.faults input.new) (K.written out.new) (K.faults out.new) result.exit result.reason }
    ensures made { result.made ≡ false }
{
    let end = plan_tables(alloc, job.interval, input, out);
    Ending {
        exit: Exit::Plan(end.status),
        reason: end.reason,
        made: false,
    }
}
