// A line read as a record.
ghost use Rattle.std.specs.Prelude.{◌≡◌, ◌≢◌, ◌≤◌, ◌<◌, ℕ, List, true, false, IfOk, IfErr, MatchResult, Ok, Err, Some, take, drop, length, map};
ghost use Rattle.fl_csv.specs.Lines.{fields_put, is_bare, lack_blob, lacks_blob, lacks_in, line_put, record_put, values_from, wanted_fields};
ghost use Rattle.fl_csv.specs.Views.{AreFields, Meant};

use crate::bare::{MOST_FIELDS, bare_fields, is_bare};
use crate::field::{blob, is_left_out, number, signed, wanted_fields};
use crate::quotes::is_open;
use crate::row::{only, row_fields};
use crate::{CsvPut, CsvRefusal, GoneBlobs};
use arrayvec::ArrayVec;
use std::alloc::Global;

/// The values behind the key.
fn values(fields: &[&[u8]], columns: u32) -> Result<ArrayVec<i64, 8>, CsvRefusal>
    requires few { columns ≤ 8 }
    requires all { columns < length fields.now }
    ensures values { MatchResult result
        (λ values. values_from 2 (take columns (drop 1 (map (λ field. field.now) fields.now))) ≡ Ok values.items)
        (λ refusal. values_from 2 (take columns (drop 1 (map (λ field. field.now) fields.now))) ≡ Err refusal) }
    ensures memory { IfErr result (λ refusal. refusal ≢ CsvRefusal.NoMemory) }
{
    let mut values = ArrayVec::new();
    'columns: for i in 0..columns {
        match signed(fields[i as usize + 1]) {
            Some(value) => values.push(value),
            None => return Err(CsvRefusal::Number { field: i + 2 }),
        }
    }
    Ok(values)
}

/// The record that the fields are, as many as are wanted.
fn put(
    alloc: Global,
    fields: &[&[u8]],
    columns: u32,
    blobs: bool,
    gone: GoneBlobs,
) -> Result<CsvPut, CsvRefusal>
    requires few { columns ≤ 8 }
    requires all { length fields.now ≡ wanted_fields columns blobs }
    ensures means { Meant result (fields_put gone columns blobs (map (λ field. field.now) fields.now)) }
    ensures gone { IfOk result (λ put. put.gone ≡ lack_blob gone columns blobs (map (λ field. field.now) fields.now)) }
    ensures memory { blobs ≡ false → IfErr result (λ refusal. refusal ≢ CsvRefusal.NoMemory) }
{
    let Some(key) = number(fields[0]) else {
        return Err(CsvRefusal::Number { field: 1 });
    };
    let values = values(fields, columns)?;
    if !blobs {
        let blob = None;
        return Ok(CsvPut {
            key,
            values,
            blob,
            gone: false,
        });
    }
    let field = fields[columns as usize + 1];
    if is_left_out(gone, field) {
        let blob = None;
        return Ok(CsvPut {
            key,
            values,
            blob,
            gone: true,
        });
    }
    let blob = blob(alloc, columns + 2, field)?;
    Ok(CsvPut {
        key,
        values,
        blob,
        gone: false,
    })
}

/// The record that the fields are, if they are as many as are wanted. No fields stand for more than any record has.
fn counted(
    alloc: Global,
    fields: Option<ArrayVec<&[u8], MOST_FIELDS>>,
    columns: u32,
    blobs: bool,
    gone: GoneBlobs,
) -> Result<CsvPut, CsvRefusal>
    requires few { columns ≤ 8 }
    ensures means { (all : List (List ℕ)) → AreFields fields.entry all → Meant result (record_put gone columns blobs (Some all)) }
    ensures gone { (all : List (List ℕ)) → AreFields fields.entry all → IfOk result (λ put. put.gone ≡ lacks_in gone columns blobs (Some all)) }
    ensures memory { blobs ≡ false → IfErr result (λ refusal. refusal ≢ CsvRefusal.NoMemory) }
{
    let wanted = wanted_fields(columns, blobs);
    match fields {
        Some(fields) if fields.len() == wanted as usize => {
            put(alloc, fields.as_slice(), columns, blobs, gone)
        }
        _ => Err(CsvRefusal::Fields { wanted }),
    }
}

/// Reads a line, without its newline, as a record of so many columns, from 1 to 8, and of a blob where there are blobs.
/// Memory is taken for a blob that has bytes, and for a line that isn't cut at its commas alone.
pub fn read_record(
    alloc: Global,
    line: &[u8],
    columns: usize,
    blobs: bool,
    gone: GoneBlobs,
) -> Result<CsvPut, CsvRefusal>
    requires some { 1 ≤ columns }
    requires few { columns ≤ 8 }
    ensures means { Meant result (line_put gone columns blobs line.now) }
    ensures gone { IfOk result (λ put. put.gone ≡ lacks_blob gone columns blobs line.now) }
    ensures memory { is_bare line.now ≡ true → blobs ≡ false → IfErr result (λ refusal. refusal ≢ CsvRefusal.NoMemory) }
{
    let columns = columns as u32;
    if is_bare(line) {
        return counted(alloc, bare_fields(line), columns, blobs, gone);
    }
    if is_open(line) {
        return Err(CsvRefusal::Csv);
    }
    let row = only(alloc, line)?;
    counted(alloc, row_fields(&row), columns, blobs, gone)
}
