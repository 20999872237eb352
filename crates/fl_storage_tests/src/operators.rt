// The operators over the rows of a page, against rows that were worked out by hand.
ghost use Rattle.std.specs.Prelude.{◌≤◌, length};

mod page_rows;

use crate::asserts::{same, same_at};
use crate::flashes::medium;
use fl_base::{Geometry, NoMemory, Op, put_u64};
use fl_flash::{Flash, SimFlash};
use fl_ops::{Aggregate, Group, KeyJoin, Project, Select};
use fl_page::{PageView, RowHere, Rows};
use fl_schema::{ColumnType, KeyWidth, Schema};
use page_rows::PageRows;
use std::alloc::Global;

const GEOMETRY: Geometry = Geometry { page: 64, block: 2 };

const COLUMN: [ColumnType; 1] = [ColumnType::I64];

// Page 0 with these rows.
fn page(rows: &[(u64, i64)]) -> [u8; 128]
    requires { length rows.now ≤ 6 }
{
    let mut page = [0; 128];
    page[4] = rows.len() as u8;
    for (i, (key, value)) in rows.iter().enumerate() {
        put_u64(&mut page, 16 + 16 * i, *key);
        put_u64(&mut page, 24 + 16 * i, value.cast_unsigned());
    }
    page
}

// Whether of three rows, with keys 1, 3 and 5, those pass whose values compare so with 30.
fn selects_rows<F: Flash>(flash: &mut F, op: Op, passes: [bool; 3]) -> bool {
    let Ok(schema) = Schema::<8>::new(KeyWidth::Eight, &COLUMN, false, 104) else {
        return false;
    };
    let bytes = page(&[(1, 10), (3, 30), (5, 50)]);
    let Ok(view) = PageView::of(&bytes, 0, &schema) else {
        return false;
    };
    let mut rows = Select::new(PageRows::new(view), 1, op, 30);
    for (key, passes) in [(1, passes[0]), (3, passes[1]), (5, passes[2])] {
        if passes {
            let Ok(more) = rows.step(flash) else {
                return false;
            };
            if !more || rows.row().key() != key {
                return false;
            }
        }
    }
    [rows.step(flash), rows.step(flash)] == [Ok(false), Ok(false)]
}

// Whether the value and then the key of each row are given.
fn projects_rows<F: Flash>(flash: &mut F) -> bool {
    let Ok(schema) = Schema::<8>::new(KeyWidth::Eight, &COLUMN, false, 104) else {
        return false;
    };
    let bytes = page(&[(1, 10), (3, -30), (5, 50)]);
    let Ok(view) = PageView::of(&bytes, 0, &schema) else {
        return false;
    };
    let mut fields = Project::new(PageRows::new(view), &[1, 0]);
    for (value, key) in [(10, 1), (-30, 3), (50, 5)] {
        let Ok(more) = fields.step(flash) else {
            return false;
        };
        if !more || (fields.value(0), fields.value(1)) != (value, key) {
            return false;
        }
    }
    fields.step(flash) == Ok(false)
}

const FIRST: Group = Group {
    group: 1,
    count: 2,
    least: -2,
    greatest: -1,
    sum: -3,
    mean: -2,
};

const SECOND: Group = Group {
    group: 170000000,
    count: 2,
    least: -52,
    greatest: -50,
    sum: -102,
    mean: -51,
};

// Whether the rows of two groups are told by these.
fn groups_rows<F: Flash>(flash: &mut F) -> bool {
    let Ok(schema) = Schema::<8>::new(KeyWidth::Eight, &COLUMN, false, 104) else {
        return false;
    };
    let bytes = page(&[(10, -1), (11, -2), (1700000000, -52), (1700000009, -50)]);
    let Ok(view) = PageView::of(&bytes, 0, &schema) else {
        return false;
    };
    let mut groups = Aggregate::new(PageRows::new(view), 1, 10);
    let steps = [
        groups.step(flash),
        groups.step(flash),
        groups.step(flash),
        groups.step(flash),
    ];
    steps == [Ok(Some(FIRST)), Ok(Some(SECOND)), Ok(None), Ok(None)]
}

// Whether the rows of two pages that have one key, which are 3 and 5, come in pairs.
fn joins_rows<F: Flash>(flash: &mut F) -> bool {
    let Ok(schema) = Schema::<8>::new(KeyWidth::Eight, &COLUMN, false, 104) else {
        return false;
    };
    let left = page(&[(1, 10), (3, 30), (5, 50)]);
    let right = page(&[(3, 300), (4, 400), (5, 500), (6, 600)]);
    let Ok(left) = PageView::of(&left, 0, &schema) else {
        return false;
    };
    let Ok(right) = PageView::of(&right, 0, &schema) else {
        return false;
    };
    let mut pairs = KeyJoin::new(PageRows::new(left), PageRows::new(right));
    for key in [3, 5] {
        let Ok(more) = pairs.step(flash) else {
            return false;
        };
        if !more || (pairs.left().key(), pairs.right().key()) != (key, key) {
            return false;
        }
    }
    [pairs.step(flash), pairs.step(flash)] == [Ok(false), Ok(false)]
}

#[derive(Clone, Copy)]
enum Operator {
    Select { op: Op, passes: [bool; 3] },
    Project,
    Aggregate,
    Join,
}

// Whether an operator gives the rows that it has to.
fn gives(alloc: Global, operator: Operator) -> Result<bool, NoMemory> {
    let mut media = medium(alloc, 255)?;
    let mut flash = SimFlash::new(alloc, &mut media, GEOMETRY, 3, 16)?;
    Ok(match operator {
        Operator::Select { op, passes } => selects_rows(&mut flash, op, passes),
        Operator::Project => projects_rows(&mut flash),
        Operator::Aggregate => groups_rows(&mut flash),
        Operator::Join => joins_rows(&mut flash),
    })
}

// Whether each of the three rows passes.
const SELECTS: &[(Op, [bool; 3])] = &[
    (Op::Lt, [true, false, false]),
    (Op::Le, [true, true, false]),
    (Op::Eq, [false, true, false]),
    (Op::Ne, [true, false, true]),
    (Op::Ge, [false, true, true]),
    (Op::Gt, [false, false, true]),
];

#[test]
fn selects(rt: HostRuntime) {
    for (op, passes) in SELECTS {
        let operator = Operator::Select {
            op: *op,
            passes: *passes,
        };
        same_at(&rt, &gives(rt.alloc(), operator), &Ok(true), op);
    }
}

#[test]
fn projects(rt: HostRuntime) {
    same(&rt, &gives(rt.alloc(), Operator::Project), &Ok(true));
}

#[test]
fn groups(rt: HostRuntime) {
    same(&rt, &gives(rt.alloc(), Operator::Aggregate), &Ok(true));
}

#[test]
fn joins(rt: HostRuntime) {
    same(&rt, &gives(rt.alloc(), Operator::Join), &Ok(true));
}
