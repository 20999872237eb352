// The line of the names, read.
ghost use Rattle.std.specs.Prelude.{◌≡◌, ◌≤◌, ◌++◌, ℕ, List, true, IfOk, IfErr, Some, codes, decimal, length, map};
ghost use Rattle.std.specs.Bool.{OnTrue, OnFalse};
ghost use Rattle.fl_csv.specs.Lines.{IsHeader, is_bare, wanted_fields};
ghost use Rattle.fl_csv.specs.Text.{header_fields};
ghost use Rattle.fl_csv.specs.Views.{AreFields};

use crate::CsvRefusal;
use crate::bare::{MOST_FIELDS, bare_fields, is_bare};
use crate::field::wanted_fields;
use crate::quotes::is_open;
use crate::row::{only, row_fields};
use arrayvec::ArrayVec;
use fl_base::NoMemory;
use fl_script::TextLine;
use std::alloc::Global;

fn is_field(field: &[u8], name: &[u8]) -> bool
    ensures yes { OnTrue result (field.now ≡ name.now) }
    ensures no { OnFalse result (field.now ≡ name.now → ⊥) }
{
    field == name
}

/// Whether a field is the name of this column, from 1.
fn is_column(field: &[u8], column: u32) -> bool
    ensures yes { OnTrue result (field.now ≡ codes "c" ++ decimal column) }
    ensures no { OnFalse result (field.now ≡ codes "c" ++ decimal column → ⊥) }
{
    let mut name = TextLine::new();
    name.add_number(b"c", column);
    is_field(field, name.bytes())
}

/// Whether there are as many fields as a record has.
fn are_as_many(fields: &[&[u8]], columns: u32, blobs: bool) -> bool
    requires few { columns ≤ 8 }
    ensures yes { OnTrue result (length fields.now ≡ wanted_fields columns blobs) }
    ensures no { OnFalse result (length fields.now ≡ wanted_fields columns blobs → ⊥) }
{
    fields.len() == wanted_fields(columns, blobs) as usize
}

/// Whether the fields are the names.
fn are_names(fields: &[&[u8]], columns: u32, blobs: bool) -> bool
    requires few { columns ≤ 8 }
    requires all { length fields.now ≡ wanted_fields columns blobs }
    ensures yes { OnTrue result (map (λ field. field.now) fields.now ≡ header_fields columns blobs) }
    ensures no { OnFalse result (map (λ field. field.now) fields.now ≡ header_fields columns blobs → ⊥) }
{
    if !is_field(fields[0], b"key") {
        return false;
    }
    'columns: for i in 0..columns {
        if !is_column(fields[i as usize + 1], i + 1) {
            return false;
        }
    }
    if !blobs {
        return true;
    }
    is_field(fields[columns as usize + 1], b"blob")
}

/// Whether the fields are the names, if they are as many. No fields stand for more than any record has.
fn has_names(fields: Option<ArrayVec<&[u8], MOST_FIELDS>>, columns: u32, blobs: bool) -> bool
    requires few { columns ≤ 8 }
    ensures yes { (all : List (List ℕ)) → AreFields fields.entry all → OnTrue result (Some all ≡ Some (header_fields columns blobs)) }
    ensures no { (all : List (List ℕ)) → AreFields fields.entry all → OnFalse result (Some all ≡ Some (header_fields columns blobs) → ⊥) }
{
    let Some(fields) = fields else {
        return false;
    };
    if !are_as_many(fields.as_slice(), columns, blobs) {
        return false;
    }
    are_names(fields.as_slice(), columns, blobs)
}

/// Whether a line, without its newline, is that of the names: `key`, `c1` and so on for each column, and `blob` where there are
/// blobs. It is read as that of a record is: a byte order mark at its start is dropped, and a name may stand in quotes. Memory is
/// taken for a line that isn't cut at its commas alone.
pub fn is_header(alloc: Global, line: &[u8], columns: usize, blobs: bool) -> Result<bool, NoMemory>
    requires few { columns ≤ 8 }
    ensures yes { IfOk result (λ is. OnTrue is (IsHeader columns blobs line.now)) }
    ensures no { IfOk result (λ is. OnFalse is (IsHeader columns blobs line.now → ⊥)) }
    ensures memory { is_bare line.now ≡ true → IfErr result (λ none. ⊥) }
{
    let columns = columns as u32;
    if is_bare(line) {
        return Ok(has_names(bare_fields(line), columns, blobs));
    }
    if is_open(line) {
        return Ok(false);
    }
    match only(alloc, line) {
        Ok(row) => Ok(has_names(row_fields(&row), columns, blobs)),
        Err(CsvRefusal::Csv) => Ok(false),
        Err(_) => Err(NoMemory),
    }
}
