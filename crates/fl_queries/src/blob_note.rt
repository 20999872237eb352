// What the line of a row says of its blob.
ghost use Rattle.std.specs.Prelude.{◌≡◌};
ghost use Rattle.fl_script.specs.ReplyView.{note_view};
ghost use Rattle.fl_queries.specs.BlobNotes.{note_of};

use fl_base::BlobRef;
use fl_script::BlobNote;

/// The note on a row's blob, in a table with variable data or without.
pub(crate) fn note_of(has_blobs: bool, blob: Option<BlobRef>) -> BlobNote
    ensures { note_view result ≡ note_of has_blobs blob }
{
    if !has_blobs {
        return BlobNote::NoRing;
    }
    match blob {
        None => BlobNote::Nothing,
        Some(at) => BlobNote::Length(at.length),
    }
}
