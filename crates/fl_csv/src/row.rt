// Lines with quotes, and whatever else the crate csv reads.
ghost use Rattle.std.specs.Prelude.{◌≡◌, ◌⊎◌, IfSome, MatchResult, List, ℕ, Some, None, [], get_or};
ghost use Rattle.csv.specs.Reading.{strip_bom};
ghost use Rattle.csv.specs.Records.{fields_of};
ghost use Rattle.fl_csv.specs.Lines.{records_of, only_record};
ghost use Rattle.fl_csv.specs.Reads.{Fresh, IsOnly, Took};
ghost use Rattle.fl_csv.specs.Views.{AreFields};

use crate::CsvRefusal;
use crate::bare::MOST_FIELDS;
use arrayvec::ArrayVec;
use csv::{ByteRecord, Reader, ReaderBuilder};
use std::alloc::Global;

/// A reader of the records of a line, of any number of fields.
fn reader(alloc: Global, line: &[u8]) -> Reader<&[u8]>
    ensures { Fresh result (strip_bom line.now) }
{
    ReaderBuilder::new()
        .has_headers(false)
        .flexible(true)
        .from_reader(alloc, line)
}

/// Reads the next record, and answers whether there is one; none where memory runs out. Over a slice a read fails nowhere else,
/// though no contract of the reader says so.
fn read(reader: &mut Reader<&[u8]>, row: &mut ByteRecord) -> Option<bool>
    ensures { IfSome result (λ found. Took reader.old reader.new found (fields_of row.new)) }
{
    match reader.read_byte_record(row) {
        Ok(found) => Some(found),
        Err(_) => None,
    }
}

/// Whether there is one record, which `row` is then, and no next one.
fn is_one(reader: &mut Reader<&[u8]>, row: &mut ByteRecord, next: &mut ByteRecord) -> Option<bool>
    ensures { (text : List ℕ) → Fresh reader.old text → IfSome result (λ one. IsOnly one (fields_of row.new) text) }
{
    if !read(reader, row)? {
        return Some(false);
    }
    Some(!read(reader, next)?)
}

/// Whether a line is one record, which `row` is then.
fn is_only(alloc: Global, line: &[u8], row: &mut ByteRecord) -> Option<bool>
    ensures { IfSome result (λ one. IsOnly one (fields_of row.new) (strip_bom line.now)) }
{
    let mut reader = reader(alloc, line);
    let mut next = ByteRecord::new(alloc);
    is_one(&mut reader, row, &mut next)
}

/// The only record of a line.
pub(crate) fn only(alloc: Global, line: &[u8]) -> Result<ByteRecord, CsvRefusal>
    ensures { MatchResult result
        (λ row. only_record (records_of line.now) ≡ Some (fields_of row))
        (λ refusal. (refusal ≡ CsvRefusal.NoMemory) ⊎ ((refusal ≡ CsvRefusal.Csv) × (only_record (records_of line.now) ≡ None))) }
{
    let mut row = ByteRecord::new(alloc);
    match is_only(alloc, line, &mut row) {
        Some(true) => Ok(row),
        Some(false) => Err(CsvRefusal::Csv),
        None => Err(CsvRefusal::NoMemory),
    }
}

/// The field at a place, from 0 on.
fn field(row: &ByteRecord, i: usize) -> &[u8]
    ensures { result.now ≡ get_or (fields_of row.now) i [] }
{
    row.get(i).unwrap_or(&[])
}

/// The fields of a record, where these aren't more than any record has.
pub(crate) fn row_fields(row: &ByteRecord) -> Option<ArrayVec<&[u8], MOST_FIELDS>>
    ensures { AreFields result (fields_of row.now) }
{
    if row.len() > MOST_FIELDS {
        return None;
    }
    let mut fields = ArrayVec::new();
    'fields: for i in 0..row.len() {
        fields.push(field(row, i));
    }
    Some(fields)
}
