// The types of columns.
ghost use Rattle.std.specs.Prelude.{◌≡◌, ◌≢◌, ◌+◌, ◌≤◌, true, false, length, slice_range, MatchOption};
ghost use Rattle.fl_base.specs.Bytes.{splice};
ghost use Rattle.fl_model.specs.Record.{least, greatest, fits};
ghost use Rattle.fl_model.specs.Row.{value_bytes, value_in};
ghost use Rattle.fl_schema.specs.Types.{name_of, column_of};
ghost use Rattle.fl_schema.specs.declared.column.ColumnType.{ColumnType};

use byteorder::{ByteOrder, LittleEndian};

/// The type of a column: unsigned or signed, and how many bits.
#[derive(Clone, Copy, Debug, PartialEq, Eq, Default)]
pub enum ColumnType {
    #[default]
    U8,
    I8,
    U16,
    I16,
    U32,
    I32,
    I64,
}

// The table of the types: the name twice, the bytes, how they are read, the least and the greatest value.
macro_rules! column_types {
    ($each:ident, $($arg:tt)*) => {
        $each!(($($arg)*)
            (U8, "u8", b"u8", 1, read_unsigned, 0, 255)
            (I8, "i8", b"i8", 1, read_signed, -128, 127)
            (U16, "u16", b"u16", 2, read_unsigned, 0, 65535)
            (I16, "i16", b"i16", 2, read_signed, -32768, 32767)
            (U32, "u32", b"u32", 4, read_unsigned, 0, 4294967295)
            (I32, "i32", b"i32", 4, read_signed, -2147483648, 2147483647)
            (I64, "i64", b"i64", 8, read_signed, -9223372036854775808, 9223372036854775807))
    };
}

macro_rules! pick_type {
    (($name:expr) $(($variant:ident, $text:literal, $bytes:literal, $width:literal, $read:ident, $least:literal, $greatest:literal))*) => {
        match $name {
            $($bytes => Some(ColumnType::$variant),)*
            _ => None,
        }
    };
}

macro_rules! pick_name {
    (($of:expr) $(($variant:ident, $text:literal, $bytes:literal, $width:literal, $read:ident, $least:literal, $greatest:literal))*) => {
        match $of {
            $(ColumnType::$variant => $text,)*
        }
    };
}

macro_rules! pick_width {
    (($of:expr) $(($variant:ident, $text:literal, $bytes:literal, $width:literal, $read:ident, $least:literal, $greatest:literal))*) => {
        match $of {
            $(ColumnType::$variant => $width,)*
        }
    };
}

macro_rules! pick_least {
    (($of:expr) $(($variant:ident, $text:literal, $bytes:literal, $width:literal, $read:ident, $least:literal, $greatest:literal))*) => {
        match $of {
            $(ColumnType::$variant => $least,)*
        }
    };
}

macro_rules! pick_greatest {
    (($of:expr) $(($variant:ident, $text:literal, $bytes:literal, $width:literal, $read:ident, $least:literal, $greatest:literal))*) => {
        match $of {
            $(ColumnType::$variant => $greatest,)*
        }
    };
}

macro_rules! write_value {
    (($of:expr, $value:expr, $into:expr, $at:expr) $(($variant:ident, $text:literal, $bytes:literal, $width:literal, $read:ident, $least:literal, $greatest:literal))*) => {
        match $of {
            $(ColumnType::$variant => LittleEndian::write_int(&mut $into[$at..$at + $width], $value, $width),)*
        }
    };
}

macro_rules! read_value {
    (($of:expr, $from:expr, $at:expr) $(($variant:ident, $text:literal, $bytes:literal, $width:literal, $read:ident, $least:literal, $greatest:literal))*) => {
        match $of {
            $(ColumnType::$variant => $read($from, $at, $width),)*
        }
    };
}

// The number in the bytes from `at` on.
#[inline(always)]
#[tactic(auto, using(crate::proofs::Numbers::number_read))]
fn read_unsigned(from: &[u8], at: usize, width: usize) -> i64
    requires some { 1 ≤ width }
    requires few { width ≤ 4 }
    requires room { at + width ≤ length from.now }
    ensures { result ≡ value_in (record { width = width; signed = false }) (slice_range from.now at (at + width)) }
{
    LittleEndian::read_uint(&from[at..at + width], width) as i64
}

// The signed number in the bytes from `at` on.
#[inline(always)]
#[tactic(auto, using(crate::proofs::Numbers::number_read))]
fn read_signed(from: &[u8], at: usize, width: usize) -> i64
    requires some { 1 ≤ width }
    requires few { width ≤ 8 }
    requires room { at + width ≤ length from.now }
    ensures { result ≡ value_in (record { width = width; signed = true }) (slice_range from.now at (at + width)) }
{
    LittleEndian::read_int(&from[at..at + width], width)
}

impl ColumnType {
    /// The type of this name.
    pub fn from_name(name: &[u8]) -> Option<ColumnType>
        ensures { MatchOption result ((of : ColumnType) → name_of of ≢ name.now) (λ of. name_of of ≡ name.now) }
    {
        column_types!(pick_type, name)
    }

    pub fn name(self) -> &'static str
        ensures { result.now ≡ name_of self }
    {
        column_types!(pick_name, self)
    }

    /// In bytes.
    pub fn width(self) -> u32
        ensures value { result ≡ (column_of self).width }
        ensures most { result ≤ 8 }
    {
        column_types!(pick_width, self)
    }

    /// The least value that fits.
    pub fn least(self) -> i64
        ensures { result ≡ least (column_of self) }
    {
        column_types!(pick_least, self)
    }

    /// The greatest value that fits.
    pub fn greatest(self) -> i64
        ensures { result ≡ greatest (column_of self) }
    {
        column_types!(pick_greatest, self)
    }

    /// Writes a value to the bytes from `at` on.
    pub(crate) fn write(self, value: i64, into: &mut [u8], at: usize)
        requires fits { fits (column_of self) value ≡ true }
        requires room { at + (column_of self).width ≤ length into.old }
        ensures { into.new ≡ splice into.old at (value_bytes (column_of self) value) }
    {
        column_types!(write_value, self, value, into, at)
    }

    /// The value in the bytes from `at` on.
    pub(crate) fn read(self, from: &[u8], at: usize) -> i64
        requires { at + (column_of self).width ≤ length from.now }
        ensures { result ≡ value_in (column_of self) (slice_range from.now at (at + (column_of self).width)) }
    {
        column_types!(read_value, self, from, at)
    }
}
