// The text of the configuration at the front of an image.
ghost use Rattle.std.specs.Prelude.{◌≡◌, ◌+◌, ◌≤◌, ◌∷◌, ◌++◌, [], length, map, codes, decimal, nat_lt, if◌then◌else◌};
ghost use Rattle.std.specs.List.{flat_map, join_with_byte};
ghost use Rattle.fl_words.specs.Medium.{column_name, device_text, table_text};
ghost use Rattle.fl_schema.specs.Types.{column_of};
ghost use Rattle.fl_config.specs.Entry.{plan_in};

use crate::entry::Entry;
use arrayvec::ArrayVec;
use fl_base::Geometry;
use fl_schema::ColumnType;
use itoa::{Buffer, Integer};
use std::marker::Model;

/// Room for the text of any configuration: its longest line has fewer than 200 bytes.
const ROOM: usize = 1024;

/// Lines of a configuration, as the header of an image has them.
#[derive(Drop)]
pub struct HeaderText {
    text: ArrayVec<u8, ROOM>,
}

impl Model for HeaderText {
    ghost use Rattle.std.specs.Prelude.{List, ℕ};

    ghost Value = { List ℕ };

    ghost view = { λ h. h.text.items };
}

impl HeaderText {
    pub(crate) fn new() -> HeaderText
        ensures { result ≡ [] }
    {
        HeaderText {
            text: ArrayVec::new(),
        }
    }

    /// The bytes of the lines.
    pub fn bytes(&self) -> &[u8]
        ensures text { result.now ≡ self.now }
        ensures short { length result.now ≤ ROOM }
    {
        self.text.as_slice()
    }

    fn add(&mut self, text: &[u8])
        requires { length self.old + length text.now ≤ ROOM }
        ensures { self.new ≡ self.old ++ text.now }
    {
        self.text.try_extend_from_slice(text).unwrap();
    }

    /// A word behind a space.
    fn add_word(&mut self, word: &[u8])
        requires { length self.old + length word.now + 1 ≤ ROOM }
        ensures { self.new ≡ self.old ++ 32 ∷ word.now }
    {
        self.add(b" ");
        self.add(word);
    }

    /// A number behind a space.
    fn add_number<I: Integer>(&mut self, n: I)
        requires { length self.old + I.MAX_STR_LEN + 1 ≤ ROOM }
        ensures text { self.new ≡ self.old ++ 32 ∷ I.text n }
        ensures short { length self.new ≤ length self.old + I.MAX_STR_LEN + 1 }
    {
        let mut buffer = Buffer::new();
        self.add_word(buffer.format(n).as_bytes());
    }

    /// The types of columns behind a space, with commas between them.
    fn add_columns(&mut self, columns: &[ColumnType])
        requires few { length columns.now ≤ 8 }
        requires room { length self.old + 40 ≤ ROOM }
        ensures text { self.new ≡ self.old ++ 32 ∷ join_with_byte 44 (map column_name (map column_of columns.now)) }
        ensures short { length self.new ≤ length self.old + 40 }
    {
        self.add(b" ");
        for (i, column) in columns.iter().enumerate() {
            if i > 0 {
                self.add(b",");
            }
            self.add(column.name().as_bytes());
        }
    }

    pub(crate) fn add_device(&mut self, geometry: Geometry)
        requires { self.old ≡ [] }
        ensures text { self.new ≡ device_text geometry }
        ensures short { length self.new ≤ 40 }
    {
        self.add(b"device");
        self.add_number(geometry.page);
        self.add_number(geometry.block);
        self.add(b"\n");
    }

    /// The word for full index entries behind a space, where they are full.
    fn add_format(&mut self, full: bool)
        requires { length self.old + 7 ≤ ROOM }
        ensures text { self.new ≡ (if full then self.old ++ 32 ∷ codes "index2" else self.old) }
        ensures short { length self.new ≤ length self.old + 7 }
    {
        if full {
            self.add_word(b"index2");
        }
    }

    /// The word for a log and its blocks, each behind a space, where it has blocks.
    fn add_log(&mut self, blocks: u32)
        requires { length self.old + 15 ≤ ROOM }
        ensures text { self.new ≡ (if nat_lt 0 blocks then self.old ++ 32 ∷ codes "rlc" ++ 32 ∷ decimal blocks else self.old) }
        ensures short { length self.new ≤ length self.old + 15 }
    {
        if blocks > 0 {
            self.add_word(b"rlc");
            self.add_number(blocks);
        }
    }

    pub(crate) fn add_table(&mut self, table: &Entry)
        requires { length self.old + 200 ≤ ROOM }
        ensures text { self.new ≡ self.old ++ table_text (plan_in table.now) }
        ensures short { length self.new ≤ length self.old + 200 }
    {
        self.add(b"table");
        self.add_word(table.name.bytes());
        self.add_number(table.config.key.width());
        self.add_columns(table.config.columns.as_slice());
        self.add_number(table.config.rows.blocks);
        self.add_number(table.config.index_blocks());
        self.add_number(table.config.var_blocks());
        self.add_number(table.bits());
        self.add_number(table.base());
        self.add_number(table.width());
        self.add_number(table.config.error);
        self.add_number(table.config.blob_limit);
        self.add_format(table.config.full_index);
        self.add_log(table.log_blocks());
        self.add(b"\n");
    }

    pub(crate) fn add_tables(&mut self, tables: &[Entry])
        requires short { length self.old ≤ 40 }
        requires few { length tables.now ≤ 4 }
        ensures text { self.new ≡ self.old ++ flat_map table_text (map plan_in tables.now) }
    {
        for table in tables {
            self.add_table(table);
        }
    }
}
