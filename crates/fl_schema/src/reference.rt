// Where a row's blob stands, in ten bytes.
ghost use Rattle.std.specs.Prelude.{◌≡◌, ◌+◌, ◌≤◌, ◌++◌, IfSome, length, drop};
ghost use Rattle.fl_base.specs.Bytes.{splice};
ghost use Rattle.fl_model.specs.Row.{FitsBytes, le, reference_bytes, reference_in};

use fl_base::{BlobRef, get_u16, get_u32, put_u16, put_u32};

/// How many bytes a reference has.
pub(crate) const REFERENCE: u32 = 10;

// What stands for no blob: all bytes 255.
const NO_BLOB: BlobRef = BlobRef {
    page: u32::MAX,
    offset: u16::MAX,
    length: u32::MAX,
};

// Writes the three numbers of a reference.
fn write_fields(into: &mut [u8], at: usize, blob: BlobRef)
    requires { at + 10 ≤ length into.old }
    ensures bytes { into.new ≡ splice into.old at (le 4 blob.page ++ le 2 blob.offset ++ le 4 blob.length) }
    ensures fits { FitsBytes blob }
{
    put_u32(into, at, blob.page);
    put_u16(into, at + 4, blob.offset);
    put_u32(into, at + 6, blob.length);
}

/// Writes a reference to the ten bytes from `at`.
pub(crate) fn write_reference(into: &mut [u8], at: usize, blob: Option<BlobRef>)
    requires { at + 10 ≤ length into.old }
    ensures bytes { into.new ≡ splice into.old at (reference_bytes blob) }
    ensures fits { IfSome blob FitsBytes }
{
    match blob {
        Some(blob) => write_fields(into, at, blob),
        None => write_fields(into, at, NO_BLOB),
    }
}

/// The reference in the ten bytes from `at`.
pub(crate) fn read_reference(from: &[u8], at: usize) -> Option<BlobRef>
    requires { at + 10 ≤ length from.now }
    ensures { result ≡ reference_in (drop at from.now) }
{
    let blob = BlobRef {
        page: get_u32(from, at),
        offset: get_u16(from, at + 4),
        length: get_u32(from, at + 6),
    };
    if blob == NO_BLOB { None } else { Some(blob) }
}
