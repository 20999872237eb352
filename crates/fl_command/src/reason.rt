// Why a run ended so.
ghost use Rattle.std.specs.Prelude.{◌≡◌};

use fl_ends::Status;
use fl_flash::Media;
use fl_reason::{Reason, Tail, config_reason, header_reason, line_reason};
use fl_script::LineRoom;
use std::alloc::Global;

/// Why a run of a script ended so, where a line of it or the image is refused. None where nothing more is known: for the other
/// statuses, where the line or the front of the script isn't kept, and where memory is wanting. At most the header of the image
/// is read.
pub fn reason_of<M: Media>(
    alloc: Global,
    status: Status,
    script: &Tail,
    media: &mut M,
) -> Option<Reason>
    ensures looks { (M.state media.new).content ≡ (M.state media.old).content }
{
    match status {
        Status::Line { line } => {
            let mut room = LineRoom::new(alloc).ok()?;
            let line = script.line(line)?;
            let reason = line_reason(line, &mut room)?;
            Some(Reason::Line(reason))
        }
        Status::Config { .. } => {
            let mut room = LineRoom::new(alloc).ok()?;
            let reason = config_reason(script, &mut room)?;
            Some(Reason::Config(reason))
        }
        Status::OtherConfig { .. } => {
            let mut room = LineRoom::new(alloc).ok()?;
            let reason = header_reason(script, media, &mut room)?;
            Some(Reason::Header(reason))
        }
        _ => None,
    }
}
