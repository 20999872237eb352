// The schema of a table: its key, its columns, and whether rows refer to blobs.
ghost use Rattle.std.specs.Prelude.{◌≡◌, ◌≤◌};
ghost use Rattle.fl_model.specs.Record.{layout_len};
ghost use Rattle.fl_schema.specs.Form.{key_width, types_in, layout_with, ArePlaced};

use crate::reference::{REFERENCE, write_reference};
use crate::{ColumnType, RowKind};
use arrayvec::ArrayVec;
use fl_base::{BlobRef, put_u32, put_u64};

/// How many bytes a key has.
#[derive(Clone, Copy, Debug, PartialEq, Eq)]
pub enum KeyWidth {
    Four,
    Eight,
}

/// Why a list of columns makes no schema.
#[derive(Clone, Copy, Debug, PartialEq, Eq)]
pub enum SchemaRefusal {
    NoColumn,
    TooManyColumns { limit: u32 },
    RowTooLong { row: u32, room: u32 },
}

/// A column, and the byte of the row at which it begins.
#[derive(Clone, Copy, Debug, Default)]
pub(crate) struct PlacedColumn {
    pub(crate) of: ColumnType,
    pub(crate) at: u32,
}

/// What the rows of a table are made of.
#[derive(Drop)]
pub struct Schema<const COLS: usize> {
    key: KeyWidth,
    columns: ArrayVec<PlacedColumn, COLS>,
    blobs: bool,
    row: u32,
    ghost placed: { ArePlaced key columns.items },
    ghost row_is: { row ≡ layout_len (layout_with key (types_in columns.items) blobs) },
    ghost few: { COLS ≤ 65535 },
}

impl KeyWidth {
    ghost use Rattle.std.specs.Prelude.{◌*◌, ◌^◌, ◌<◌, length};
    ghost use Rattle.fl_base.specs.Bytes.{splice};
    ghost use Rattle.fl_model.specs.Row.{le};

    /// In bytes.
    pub fn width(self) -> u32
        ensures { result ≡ key_width self }
    {
        match self {
            KeyWidth::Four => 4,
            KeyWidth::Eight => 8,
        }
    }

    /// Writes a key to the first bytes.
    fn write(self, key: u64, into: &mut [u8])
        requires fits { key < 2 ^ (8 * key_width self) }
        requires room { key_width self ≤ length into.old }
        ensures { into.new ≡ splice into.old 0 (le (key_width self) key) }
    {
        match self {
            KeyWidth::Four => put_u32(into, 0, key as u32),
            KeyWidth::Eight => put_u64(into, 0, key),
        }
    }
}

impl<const COLS: usize> Schema<COLS> {
    ghost use Rattle.std.specs.Prelude.{ℤ, List, Option, ◌<◌, None, Some, MatchResult, length, slice_get};
    ghost use Rattle.fl_model.specs.Record.{greatest_key};
    ghost use Rattle.fl_model.specs.Row.{Row, FitsRow, IsStorable, bytes_of_row};
    ghost use Rattle.fl_schema.specs.Refusal.{refusal_of};
    ghost use Rattle.fl_schema.specs.Schema.{types_of, layout_of, kind_layout};

    /// The schema of these columns, whose rows fit the room.
    pub fn new(
        key: KeyWidth,
        columns: &[ColumnType],
        blobs: bool,
        room: u32,
    ) -> Result<Schema<COLS>, SchemaRefusal>
        requires { COLS ≤ 65535 }
        ensures { let layout = layout_with key columns.now blobs in MatchResult result
            (λ schema. (refusal_of COLS layout room ≡ None) × (layout_of schema ≡ layout) × (types_of schema ≡ columns.now))
            (λ refusal. refusal_of COLS layout room ≡ Some refusal) }
    {
        if columns.is_empty() {
            return Err(SchemaRefusal::NoColumn);
        }
        if columns.len() > COLS {
            return Err(SchemaRefusal::TooManyColumns { limit: COLS as u32 });
        }
        let mut placed = ArrayVec::new();
        let mut row = key.width();
        for column in columns {
            placed.push(PlacedColumn {
                of: *column,
                at: row,
            });
            row += column.width();
        }
        if blobs {
            row += REFERENCE;
        }
        if row > room {
            return Err(SchemaRefusal::RowTooLong { row, room });
        }
        Ok(Schema {
            key,
            columns: placed,
            blobs,
            row,
        })
    }

    /// How many bytes a row has.
    pub fn row_len(&self) -> u32
        ensures { result ≡ layout_len (layout_of self.now) }
    {
        self.row
    }

    pub fn columns(&self) -> usize
        ensures { result ≡ length (types_of self.now) }
    {
        self.columns.len()
    }

    /// The type of column i, from 0.
    pub fn column(&self, i: usize) -> ColumnType
        requires { i < length (types_of self.now) }
        ensures { slice_get (types_of self.now) i ≡ Some result }
    {
        self.columns[i].of
    }

    /// The greatest key that fits.
    pub fn key_limit(&self) -> u64
        ensures { result ≡ greatest_key (layout_of self.now) }
    {
        match self.key {
            KeyWidth::Four => u64::from(u32::MAX),
            KeyWidth::Eight => u64::MAX,
        }
    }

    /// Whether a row can refer to a blob.
    pub fn has_blobs(&self) -> bool
        ensures { result ≡ (layout_of self.now).blobs }
    {
        self.blobs
    }

    /// Writes a row.
    pub fn encode(&self, key: u64, values: &[i64], blob: Option<BlobRef>, into: &mut [u8])
        requires fits { FitsRow (layout_of self.now) (record { key = key; values = values.now; blob = blob }) }
        requires room { length into.old ≡ layout_len (layout_of self.now) }
        ensures bytes { into.new ≡ bytes_of_row (layout_of self.now) (record { key = key; values = values.now; blob = blob }) }
        ensures storable { IsStorable (layout_of self.now) (record { key = key; values = values.now; blob = blob }) }
    {
        self.key.write(key, into);
        for (i, column) in self.columns.as_slice().iter().enumerate() {
            column.of.write(values[i], into, column.at as usize);
        }
        if self.blobs {
            write_reference(into, (self.row - REFERENCE) as usize, blob);
        }
    }

    /// The kind of its rows.
    pub fn kind(&self) -> RowKind<'_>
        ensures { kind_layout result ≡ layout_of self.now }
    {
        RowKind {
            key: self.key,
            columns: self.columns.as_slice(),
            blobs: self.blobs,
            row: self.row,
        }
    }
}
