// Why a record isn't put.
ghost use Rattle.std.specs.Prelude.{◌≡◌};
ghost use Rattle.fl_schema.specs.Schema.{layout_of};

use crate::PutRefusal;
use crate::table::Table;
use fl_parts::misfit;

/// The first page number at which puts are refused: what is above it is left to mounts.
const SPENT_FROM: u32 = 4_294_901_760;

impl<const KNOTS: usize, const SLOTS: usize> Table<KNOTS, SLOTS> {
    ghost use Rattle.std.specs.Prelude.{not, length, ◌==◌, option_map};
    ghost use Rattle.fl_parts.specs.Bitmaps.{next_of as index_next};
    ghost use Rattle.fl_parts.specs.Blobs.{next_of as blob_next};
    ghost use Rattle.fl_table.specs.Memory.{is_running};
    ghost use Rattle.fl_table.specs.Refusal.{key_refused, value_refused, blob_refused, spent_refused, put_refusal};

    fn key_refused(&self, key: u64) -> Option<PutRefusal>
        ensures { result ≡ key_refused self.now.last_key key }
    {
        let last = self.last_key?;
        (key <= last).then_some(PutRefusal::Key { last })
    }

    fn value_refused(&self, key: u64, values: &[i64]) -> Option<PutRefusal>
        requires { length values.now ≡ length (layout_of self.now.schema).columns }
        ensures { result ≡ value_refused self.now key values.now }
    {
        if key > self.schema.key_limit() {
            return Some(PutRefusal::Value { column: 0 });
        }
        let column = misfit(&self.schema, values)?;
        Some(PutRefusal::Value { column })
    }

    /// The number of the next index page. A table without an index answers 0.
    fn next_index_page(&self) -> u32
        ensures { result ≡ index_next self.now.bitmaps }
    {
        match &self.bitmaps {
            Some(index) => index.next_number(),
            None => 0,
        }
    }

    /// The number of the next page of variable data. A table without any answers 0.
    fn next_blob_page(&self) -> u32
        ensures { result ≡ blob_next self.now.blobs }
    {
        match &self.blobs {
            Some(var) => var.next_number(),
            None => 0,
        }
    }

    fn blob_refused(&self, blob: Option<&[u8]>) -> Option<PutRefusal>
        ensures { result ≡ blob_refused self.now (option_map (λ b. length b.now) blob.entry) }
    {
        let bytes = blob?;
        if self.blobs.is_none() {
            return Some(PutRefusal::Blob { limit: 0 });
        }
        let limit = self.blob_limit;
        (bytes.len() > limit as usize).then_some(PutRefusal::Blob { limit })
    }

    fn spent_refused(&self) -> Option<PutRefusal>
        ensures { result ≡ spent_refused self.now }
    {
        let pages = self.next_number().max(self.next_index_page());
        let next = pages.max(self.next_blob_page());
        (next >= SPENT_FROM).then_some(PutRefusal::Spent)
    }

    /// The first refusal of a record that applies, if one does.
    pub fn refusal(&self, key: u64, values: &[i64], blob: Option<&[u8]>) -> Option<PutRefusal>
        ensures { result ≡ put_refusal self.now key values.now (option_map (λ b. length b.now) blob.entry) }
    {
        if !self.is_running() {
            return Some(PutRefusal::Stopped);
        }
        let refused = self.key_refused(key);
        if refused.is_some() {
            return refused;
        }
        let wanted = self.schema.columns();
        if values.len() != wanted {
            return Some(PutRefusal::Columns {
                wanted: wanted as u32,
            });
        }
        let refused = self.value_refused(key, values);
        if refused.is_some() {
            return refused;
        }
        let refused = self.blob_refused(blob);
        if refused.is_some() {
            return refused;
        }
        self.spent_refused()
    }
}
