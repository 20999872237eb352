// A job over an image.
ghost use Rattle.fl_command.specs.Ends.{ToolEnds, ends_of};

use crate::{Exit, ToolJob};
use fl_base::{Sink, Source};
use fl_export::export_image;
use fl_flash::Media;
use fl_image_check::{RingChecker, check_all, check_image};
use fl_import::{JobEnd, import_image};
use fl_map::map_image;
use fl_salvage::salvage_image;
use std::alloc::Global;

/// Does the job over its image. A check writes a line for each table, up to the first that isn't sound, or of all of them a line
/// for each sound one and one for each rule that is looked at and doesn't hold of another; a map draws the pages of the image; an
/// export writes the records of its table whose keys are in its range; an import reads records from the input, puts them into its
/// table, and writes what it refuses; a salvage writes the records of its table that are still there.
/// Statuses are those of the job's own call: `check_image` and `check_all`, by the rules of a table's rings, `map_image`,
/// `export_image`, `import_image` and `salvage_image`.
pub fn tool<M: Media, S: Source, K: Sink>(
    alloc: Global,
    job: ToolJob,
    media: &mut M,
    input: &mut S,
    out: &mut K,
) -> Exit
    // What was done is that job and no other, with its table and its range.
    ensures { ToolEnds job (ends_of (M.state media.old) input.old (S.left input.old) (S.faults input.old) out.old (K.written out.old) (K.faults out.old))
        (ends_of (M.state media.new) input.new (S.left input.new) (S.faults input.new) out.new (K.written out.new) (K.faults out.new)) result }
{
    match job {
        ToolJob::Check => Exit::Job(JobEnd::of(check_image(alloc, &mut RingChecker, media, out))),
        ToolJob::CheckAll => Exit::Job(JobEnd::of(check_all(alloc, &mut RingChecker, media, out))),
        ToolJob::Map { drawing } => Exit::Job(JobEnd::of(map_image(alloc, drawing, media, out))),
        ToolJob::Export { name, range } => {
            Exit::Job(JobEnd::of(export_image(alloc, name, range, media, out)))
        }
        ToolJob::Import { name, gone } => {
            Exit::Job(import_image(alloc, name, gone, media, input, out))
        }
        ToolJob::Salvage { name } => Exit::Salvage(salvage_image(alloc, name, media, input, out)),
    }
}
