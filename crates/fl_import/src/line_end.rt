// What becomes of a line.
ghost use Rattle.std.specs.Prelude.{◌≡◌};
ghost use Rattle.fl_import.specs.Counting as counting;

/// What becomes of a line below the first one.
#[derive(Clone, Copy, Debug, PartialEq, Eq)]
pub(crate) enum LineEnd {
    /// It is no record, or its record was refused, and that was told.
    Refused,
    /// Its record was put.
    Put,
    /// It was put without its blob, since that is gone.
    PutWithoutBlob,
}

/// The end of a line whose record was put, by whether its blob was left out.
pub(crate) fn put_end(gone: bool) -> LineEnd
    ensures { result ≡ counting.put_end gone }
{
    if gone {
        LineEnd::PutWithoutBlob
    } else {
        LineEnd::Put
    }
}
