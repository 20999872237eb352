// The page of one row, byte by byte.
use crate::asserts::same;
use fl_base::NoMemory;
use fl_page::{BadPage, PageView, PageWriter};
use fl_schema::{ColumnType, KeyWidth, Schema};
use std::alloc::Global;

const C1: [ColumnType; 1] = [ColumnType::I32];

// The header and the row.
const BEGIN: &[u8] = b"\0\0\0\0\x01\0\0\0\x01\0\0\0\0\0\0\0\x01\0\0\0\0\0\0\0\xfb\xff\xff\xff";

// Whether a body is blank from a byte on.
fn is_blank_from(body: &[u8], at: usize) -> bool {
    at <= body.len() && body[at..].iter().all(|b| *b == 0xff)
}

// The rows, the first key, the rows below key 2 and the first value that page 0 has, and why it isn't page 7.
type Seen = (usize, u64, usize, i64, Option<BadPage>);

fn see(body: &[u8]) -> Option<Seen> {
    if body.len() < 24 {
        return None;
    }
    let Ok(schema) = Schema::<8>::new(KeyWidth::Eight, &C1, false, 104) else {
        return None;
    };
    let Ok(view) = PageView::of(body, 0, &schema) else {
        return None;
    };
    let bad = PageView::of(body, 7, &schema).err();
    let value = view.row(0).value(0);
    Some((view.rows(), view.first_key(), view.seek(2), value, bad))
}

// What is made of a row: how many bytes the body has, whether it begins with the header and the row and is blank behind them, and what
// is seen of it; then whether it is blank and without rows once it was cleared.
type Made = (usize, bool, bool, Option<Seen>, bool, u32);

fn make(alloc: Global) -> Result<Option<Made>, NoMemory> {
    let mut writer = PageWriter::new(alloc, 128)?;
    let Ok(schema) = Schema::<8>::new(KeyWidth::Eight, &C1, false, 104) else {
        return Ok(None);
    };
    if writer.is_full(&schema) {
        return Ok(None);
    }
    writer.push_row(&schema, 1, &[-5], None);
    writer.finish(0, 1);
    let body = writer.body();
    let size = body.len();
    let begins = body.starts_with(BEGIN);
    let is_blank = is_blank_from(body, 28);
    let seen = see(body);
    writer.clear();
    let is_cleared = is_blank_from(writer.body(), 16);
    Ok(Some((size, begins, is_blank, seen, is_cleared, writer.count())))
}

// put 1 -5 and flush, on pages of 128 bytes.
#[test]
fn page_of_one_row(rt: HostRuntime) {
    let bad = BadPage {
        wanted: 7,
        found: 0,
        count: 1,
    };
    let seen = (1, 1, 1, -5, Some(bad));
    let made = (120, true, true, Some(seen), true, 0);
    same(&rt, &make(rt.alloc()), &Ok(Some(made)));
}
