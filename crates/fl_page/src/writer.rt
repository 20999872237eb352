// The rows that wait for their page.
ghost use Rattle.std.specs.Prelude.{◌≡◌, ◌+◌, ◌-◌, ◌*◌, ◌<◌, ◌≤◌, nat_lt, List, [], ◌∷◌, ◌++◌, Some, length, slice_get, slice_range, replicate, IfOk};
ghost use Rattle.fl_base.specs.Bytes.{splice};
ghost use Rattle.fl_model.specs.Record.{RowLayout, layout_len};
ghost use Rattle.fl_model.specs.Row.{Row, FitsRow, bytes_of_row};
ghost use Rattle.fl_model.specs.Layout.{rows_body};
ghost use Rattle.fl_schema.specs.Schema.{layout_of, layout_of_row, bytes_of, row_of};
ghost use Rattle.fl_page.specs.Header.{header_bytes};
ghost use Rattle.fl_page.specs.Writer.{Gathers};

use crate::header::HEADER;
use fl_base::{BlobRef, NoMemory, put_u16, put_u32, put_u64};
use fl_schema::{RowRef, Schema};
use std::alloc::Global;
use std::marker::Model;

/// The body of a data page that is being made.
#[derive(Drop)]
pub struct PageWriter {
    page: Vec<u8>,
    count: u32,
    end: usize,
}

impl Model for PageWriter {
    ghost use Rattle.std.specs.Prelude.{◌+◌, ◌<◌, ◌≤◌, vec_len};
    ghost use Rattle.fl_page.specs.WriterState.{WriterState};

    ghost Value = { WriterState };

    ghost view = { λ w. record { body = w.page.items; count = w.count; end = w.end } };

    ghost invariant = { λ w. (16 + w.count ≤ w.end) × (w.end ≤ vec_len w.page) × (vec_len w.page < 65536) };
}

impl PageWriter {
    /// Without rows, for a page of so many bytes.
    pub fn new(alloc: Global, size: u32) -> Result<PageWriter, NoMemory>
        requires least { 24 ≤ size }
        requires most { size < 65536 }
        ensures size { IfOk result (λ w. length w.body + 8 ≡ size) }
        ensures empty { IfOk result (λ w. (layout : RowLayout) → Gathers layout [] w) }
    {
        Ok(PageWriter {
            page: vec![in alloc; 0xff; size as usize - 8]?,
            count: 0,
            end: HEADER,
        })
    }

    /// One row more.
    pub fn push_row<const COLS: usize>(
        &mut self,
        schema: &Schema<COLS>,
        key: u64,
        values: &[i64],
        blob: Option<BlobRef>,
    )
        requires fits { FitsRow (layout_of schema.now) (record { key = key; values = values.now; blob = blob }) }
        requires room { self.old.end + layout_len (layout_of schema.now) ≤ length self.old.body }
        ensures exact { self.new ≡ record {
          body = splice self.old.body self.old.end (bytes_of_row (layout_of schema.now) (record { key = key; values = values.now; blob = blob }));
          count = self.old.count + 1;
          end = self.old.end + layout_len (layout_of schema.now);
        } }
        ensures rows { (rows : List Row) → Gathers (layout_of schema.now) rows self.old →
            Gathers (layout_of schema.now) (rows ++ (record { key = key; values = values.now; blob = blob }) ∷ []) self.new }
        ensures size { length self.new.body ≡ length self.old.body }
    {
        let end = self.end + schema.row_len() as usize;
        schema.encode(key, values, blob, &mut self.page[self.end..end]);
        self.count += 1;
        self.end = end;
    }

    pub fn count(&self) -> u32
        ensures { result ≡ self.now.count }
    {
        self.count
    }

    /// Whether no row more has room.
    pub fn is_full<const COLS: usize>(&self, schema: &Schema<COLS>) -> bool
        ensures room { result ≡ nat_lt (length self.now.body) (self.now.end + layout_len (layout_of schema.now)) }
    {
        self.page.len() - self.end < schema.row_len() as usize
    }

    /// Writes the header of the page: its number, the count of rows and their bitmap.
    pub fn finish(&mut self, number: u32, bitmap: u64)
        ensures exact { self.new ≡ record self.old { body = splice self.old.body 0 (header_bytes number self.old.count bitmap) } }
        ensures body { (layout : RowLayout) (rows : List Row) → Gathers layout rows self.old → self.new.body ≡ rows_body (length self.old.body) layout number bitmap rows }
        ensures rows { (layout : RowLayout) (rows : List Row) → Gathers layout rows self.old → Gathers layout rows self.new }
        ensures size { length self.new.body ≡ length self.old.body }
    {
        put_u32(&mut self.page, 0, number);
        put_u16(&mut self.page, 4, self.count as u16);
        put_u16(&mut self.page, 6, 0);
        put_u64(&mut self.page, 8, bitmap);
    }

    /// The body, which ends where the marks of the page begin.
    pub fn body(&self) -> &[u8]
        ensures { result.now ≡ self.now.body }
    {
        &self.page
    }

    /// Row i, from 0.
    pub fn row<'b, const COLS: usize>(&'b self, schema: &'b Schema<COLS>, i: usize) -> RowRef<'b>
        requires within { 16 + (i + 1) * layout_len (layout_of schema.now) ≤ self.now.end }
        ensures layout { layout_of_row result ≡ layout_of schema.now }
        ensures bytes { bytes_of result ≡ slice_range self.now.body (16 + i * layout_len (layout_of schema.now)) (16 + (i + 1) * layout_len (layout_of schema.now)) }
        ensures row { (rows : List Row) → Gathers (layout_of schema.now) rows self.now → slice_get rows i ≡ Some (row_of result) }
    {
        let rows = &self.page[HEADER..self.end];
        let len = schema.row_len() as usize;
        RowRef::of(schema.kind(), &rows[i * len..(i + 1) * len])
    }

    /// No rows: the bytes where they stood are blank again.
    pub fn clear(&mut self)
        ensures exact { self.new ≡ record { body = splice self.old.body 16 (replicate (self.old.end - 16) 255); count = 0; end = 16 } }
        ensures size { length self.new.body ≡ length self.old.body }
        ensures empty { (layout : RowLayout) (rows : List Row) → Gathers layout rows self.old → (other : RowLayout) → Gathers other [] self.new }
    {
        self.page[HEADER..self.end].fill(0xff);
        self.count = 0;
        self.end = HEADER;
    }
}
