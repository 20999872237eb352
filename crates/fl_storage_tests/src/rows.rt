// Rows against bytes that were written down by hand.
ghost use Rattle.fl_model.specs.Row.{FitsRow};
ghost use Rattle.fl_schema.specs.Form.{layout_with};

use crate::asserts::same;
use fl_base::BlobRef;
use fl_schema::ColumnType::{I8, I16, I32, I64, U8, U16, U32};
use fl_schema::{ColumnType, KeyWidth, RowRef, Schema};

// Whether a row of three columns is encoded as these bytes, and read back from them.
fn is_encoded(
    width: KeyWidth,
    columns: [ColumnType; 3],
    blobs: bool,
    key: u64,
    values: [i64; 3],
    blob: Option<BlobRef>,
    expected: &[u8],
) -> bool
    requires { FitsRow (layout_with width columns blobs) (record { key = key; values = values; blob = blob }) }
{
    let Ok(schema) = Schema::<3>::new(width, &columns, blobs, 64) else {
        return false;
    };
    let len = schema.row_len() as usize;
    let mut bytes = [0xaa; 64];
    schema.encode(key, &values, blob, &mut bytes[..len]);
    let row = RowRef::of(schema.kind(), &bytes[..len]);
    let read = [row.value(0), row.value(1), row.value(2)];
    let is_exact = &bytes[..len] == expected;
    (is_exact, row.key(), read, row.blob()) == (true, key, values, blob)
}

// The same of rows whose columns are of one type.
macro_rules! are_encoded {
    ($width:expr, $blobs:literal, $key:literal, $blob:expr; $($of:ident $values:expr, $expected:literal;)*) => {
        [$(is_encoded($width, [$of; 3], $blobs, $key, $values, $blob, $expected)),*]
    };
}

// Each type at its least value, zero and its greatest.
#[test]
fn rows_without_blobs(rt: HostRuntime) {
    let encoded = are_encoded!(KeyWidth::Four, false, 4294967295, None;
        U8 [0, 0, 255], b"\xff\xff\xff\xff\0\0\xff";
        I8 [-128, 0, 127], b"\xff\xff\xff\xff\x80\0\x7f";
        U16 [0, 0, 65535], b"\xff\xff\xff\xff\0\0\0\0\xff\xff";
        I16 [-32768, 0, 32767], b"\xff\xff\xff\xff\0\x80\0\0\xff\x7f";
        U32 [0, 0, 4294967295], b"\xff\xff\xff\xff\0\0\0\0\0\0\0\0\xff\xff\xff\xff";
        I32 [-2147483648, 0, 2147483647], b"\xff\xff\xff\xff\0\0\0\x80\0\0\0\0\xff\xff\xff\x7f";
        I64 [-9223372036854775808, 0, 9223372036854775807], b"\xff\xff\xff\xff\0\0\0\0\0\0\0\x80\0\0\0\0\0\0\0\0\xff\xff\xff\xff\xff\xff\xff\x7f";
    );
    same(&rt, &encoded, &[true; 7]);
}

#[test]
fn rows_with_references(rt: HostRuntime) {
    let blob = Some(BlobRef {
        page: 2,
        offset: 3,
        length: 4,
    });
    let encoded = are_encoded!(KeyWidth::Eight, true, 258, blob;
        U8 [0, 0, 255], b"\x02\x01\0\0\0\0\0\0\0\0\xff\x02\0\0\0\x03\0\x04\0\0\0";
        I8 [-128, 0, 127], b"\x02\x01\0\0\0\0\0\0\x80\0\x7f\x02\0\0\0\x03\0\x04\0\0\0";
        U16 [0, 0, 65535], b"\x02\x01\0\0\0\0\0\0\0\0\0\0\xff\xff\x02\0\0\0\x03\0\x04\0\0\0";
        I16 [-32768, 0, 32767], b"\x02\x01\0\0\0\0\0\0\0\x80\0\0\xff\x7f\x02\0\0\0\x03\0\x04\0\0\0";
        U32 [0, 0, 4294967295], b"\x02\x01\0\0\0\0\0\0\0\0\0\0\0\0\0\0\xff\xff\xff\xff\x02\0\0\0\x03\0\x04\0\0\0";
        I32 [-2147483648, 0, 2147483647], b"\x02\x01\0\0\0\0\0\0\0\0\0\x80\0\0\0\0\xff\xff\xff\x7f\x02\0\0\0\x03\0\x04\0\0\0";
        I64 [-9223372036854775808, 0, 9223372036854775807], b"\x02\x01\0\0\0\0\0\0\0\0\0\0\0\0\0\x80\0\0\0\0\0\0\0\0\xff\xff\xff\xff\xff\xff\xff\x7f\x02\0\0\0\x03\0\x04\0\0\0";
    );
    same(&rt, &encoded, &[true; 7]);
}

// 19 bytes of a sensor: none and the empty blob.
#[test]
fn sensor_rows(rt: HostRuntime) {
    let columns = [U16, I16, U8];
    let empty = Some(BlobRef {
        page: 0,
        offset: 0,
        length: 0,
    });
    let encoded = [
        is_encoded(
            KeyWidth::Four,
            columns,
            true,
            305419896,
            [513, -2, 7],
            None,
            b"\x78\x56\x34\x12\x01\x02\xfe\xff\x07\xff\xff\xff\xff\xff\xff\xff\xff\xff\xff",
        ),
        is_encoded(
            KeyWidth::Four,
            columns,
            true,
            305419896,
            [513, -2, 7],
            empty,
            b"\x78\x56\x34\x12\x01\x02\xfe\xff\x07\0\0\0\0\0\0\0\0\0\0",
        ),
    ];
    same(&rt, &encoded, &[true; 2]);
}

#[test]
fn names(rt: HostRuntime) {
    same(&rt, &ColumnType::from_name(b"i16"), &Some(I16));
    same(&rt, &ColumnType::from_name(b"i128"), &None);
    same(&rt, &I32.name(), &"i32");
}
