// The fields of a record: each is of its form or isn't.
ghost use Rattle.std.specs.Prelude.{◌≡◌, ◌≢◌, ◌⊎◌, ◌≤◌, MatchOption, MatchResult, Ok, Err};
ghost use Rattle.fl_words.specs.Grammar as grammar;
ghost use Rattle.fl_csv.specs.Lines as lines;
ghost use Rattle.fl_csv.specs.Lines.{blob_of};
ghost use Rattle.hex.specs.declared.error.FromHexError.{FromHexError};

use crate::{BlobBytes, CsvRefusal, GoneBlobs};
use hex::FromHexError;
use std::alloc::Global;
use std::str;

/// How many fields a record has.
pub(crate) fn wanted_fields(columns: u32, blobs: bool) -> u32
    requires few { columns ≤ 8 }
    ensures { result ≡ lines.wanted_fields columns blobs }
{
    columns + if blobs { 2 } else { 1 }
}

/// The number that a field is. It has no sign, and `parse` takes a plus.
pub(crate) fn number(field: &[u8]) -> Option<u64>
    ensures { MatchOption result (grammar.number field.now ≡ Err grammar.Number) (λ value. grammar.number field.now ≡ Ok value) }
{
    if field.starts_with(b"+") {
        return None;
    }
    let Ok(digits) = str::from_utf8(field) else {
        return None;
    };
    digits.parse().ok()
}

/// The signed number that a field is.
pub(crate) fn signed(field: &[u8]) -> Option<i64>
    ensures { MatchOption result (grammar.signed field.now ≡ Err grammar.Number) (λ value. grammar.signed field.now ≡ Ok value) }
{
    match field {
        [b'-', digits @ ..] => 0_i64.checked_sub_unsigned(number(digits)?),
        _ => i64::try_from(number(field)?).ok(),
    }
}

/// Whether a field says that the blob is gone, where such a blob is left out.
pub(crate) fn is_left_out(gone: GoneBlobs, field: &[u8]) -> bool
    ensures { result ≡ lines.is_left_out gone field.now }
{
    match gone {
        GoneBlobs::Refused => false,
        GoneBlobs::LeftOut => field == b"gone".as_slice(),
    }
}

/// Why a field isn't decoded.
fn refusal(place: u32, why: FromHexError) -> CsvRefusal
    ensures memory { why ≡ FromHexError.OutOfMemory → result ≡ CsvRefusal.NoMemory }
    ensures form { why ≢ FromHexError.OutOfMemory → result ≡ CsvRefusal.Number place }
{
    match why {
        FromHexError::OutOfMemory => CsvRefusal::NoMemory,
        _ => CsvRefusal::Number { field: place },
    }
}

/// The blob that a field tells, if there is one. `place` is the field's, from 1.
pub(crate) fn blob(alloc: Global, place: u32, field: &[u8]) -> Result<Option<BlobBytes>, CsvRefusal>
    ensures { MatchResult result (λ blob. blob_of place field.now ≡ Ok blob) (λ refusal. (refusal ≡ CsvRefusal.NoMemory) ⊎ (blob_of place field.now ≡ Err refusal)) }
{
    if field.is_empty() {
        return Ok(None);
    }
    if field == b"-".as_slice() {
        return Ok(Some(BlobBytes::of(Vec::new(alloc))));
    }
    match hex::decode(alloc, field) {
        Ok(bytes) => Ok(Some(BlobBytes::of(bytes))),
        Err(why) => Err(refusal(place, why)),
    }
}
