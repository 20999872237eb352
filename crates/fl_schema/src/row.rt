// A row among the bytes of a page.
ghost use Rattle.std.specs.Prelude.{◌≡◌, length};
ghost use Rattle.fl_model.specs.Record.{layout_len};
ghost use Rattle.fl_schema.specs.Form.{types_in, layout_with, ArePlaced};

use crate::KeyWidth;
use crate::reference::{REFERENCE, read_reference};
use crate::schema::PlacedColumn;
use fl_base::{BlobRef, get_u32, get_u64};

/// What the rows of a schema are made of.
#[derive(Clone, Copy)]
pub struct RowKind<'s> {
    pub(crate) key: KeyWidth,
    pub(crate) columns: &'s [PlacedColumn],
    pub(crate) blobs: bool,
    pub(crate) row: u32,
    ghost placed: { ArePlaced key columns.now },
    ghost row_is: { row ≡ layout_len (layout_with key (types_in columns.now) blobs) },
}

/// The bytes of a row, which are a part of the page's bytes.
#[derive(Clone, Copy)]
pub struct RowRef<'b> {
    bytes: &'b [u8],
    kind: RowKind<'b>,
    ghost whole: { length bytes.now ≡ layout_len (layout_with kind.key (types_in kind.columns.now) kind.blobs) },
}

impl RowKind<'_> {
    ghost use Rattle.fl_schema.specs.Schema.{kind_layout};

    /// How many bytes a row has.
    pub fn row_len(&self) -> u32
        ensures { result ≡ layout_len (kind_layout self.now) }
    {
        self.row
    }
}

impl<'b> RowRef<'b> {
    ghost use Rattle.std.specs.Prelude.{◌<◌, Some, slice_get};
    ghost use Rattle.fl_schema.specs.Schema.{kind_layout, layout_of_row, bytes_of, row_of};

    /// The row that these bytes are.
    pub fn of(kind: RowKind<'b>, bytes: &'b [u8]) -> RowRef<'b>
        requires { length bytes.now ≡ layout_len (kind_layout kind) }
        ensures bytes { bytes_of result ≡ bytes.now }
        ensures layout { layout_of_row result ≡ kind_layout kind.entry }
    {
        RowRef { bytes, kind }
    }

    pub fn key(&self) -> u64
        ensures { result ≡ (row_of self.now).key }
    {
        match self.kind.key {
            KeyWidth::Four => u64::from(get_u32(self.bytes, 0)),
            KeyWidth::Eight => get_u64(self.bytes, 0),
        }
    }

    /// The value of column i, from 0.
    pub fn value(&self, i: usize) -> i64
        requires { i < length (layout_of_row self.now).columns }
        ensures { slice_get (row_of self.now).values i ≡ Some result }
    {
        let column = self.kind.columns[i];
        column.of.read(self.bytes, column.at as usize)
    }

    /// Where the row's blob starts and how long it is.
    pub fn blob(&self) -> Option<BlobRef>
        ensures { result ≡ (row_of self.now).blob }
    {
        if !self.kind.blobs {
            return None;
        }
        read_reference(self.bytes, self.bytes.len() - REFERENCE as usize)
    }

    pub fn bytes(&self) -> &'b [u8]
        ensures { result.now ≡ bytes_of self.now }
    {
        self.bytes
    }
}
