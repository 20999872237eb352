// What the operators make of the rows of a range, listed.
ghost use Rattle.std.specs.Prelude.{◌≡◌, ◌+◌, ◌≤◌, ◌<◌, ℕ, None, IsTrue, true, length, map};
ghost use Rattle.std.specs.List.{AllByRecursion};
ghost use Rattle.fl_base.specs.Causes.{HasCause};
ghost use Rattle.fl_machine.specs.Step.{pair_reply};
ghost use Rattle.fl_model.specs.Limits.{scan_limit, least_reads};
ghost use Rattle.fl_model.specs.Operators as operators;
ghost use Rattle.fl_model.specs.Record.{Plan};
ghost use Rattle.fl_model.specs.Table as model;
ghost use Rattle.fl_frame.specs.Contents.{OnlyReads};
ghost use Rattle.fl_table.specs.Look.{layout_in};
ghost use Rattle.fl_table.specs.Memory.{is_running, LiesOn};
ghost use Rattle.fl_table.specs.Standing.{Stands};
ghost use Rattle.fl_queries.specs.Asked.{asked_records, lacked_column};
ghost use Rattle.fl_queries.specs.ListSays.{EndsPairs, EndsRange, IsPair, ListSays};
ghost use Rattle.fl_queries.specs.Lines.{Counted};
ghost use Rattle.fl_queries.specs.Operators.{columns_by, lines_by, AreLinesBy, IsFit};
ghost use Rattle.fl_queries.specs.Room.{HasRooms};

use crate::buffers::Buffers;
use crate::group_lines::{GroupLines, NO_GROUP};
use crate::pair_lines::PairLines;
use crate::reply_lines::answer_lines;
use crate::rows::{RowForm, form_of};
use arrayvec::ArrayVec;
use fl_base::{KeyRange, Op, Sink, SinkFailed};
use fl_flash::Flash;
use fl_ops::{Aggregate, Project, Select};
use fl_store::{Cursor, Table};

/// A column that is compared with a value. Column 0 is the key.
#[derive(Clone, Copy)]
pub struct Comparison {
    pub column: usize,
    pub op: Op,
    pub value: i64,
}

/// What is made of the rows of a range: those of which a column compares so with a value, these columns of each, or the groups of
/// them by their keys divided by the width, with what is told of their values of the column.
#[derive(Clone, Copy)]
pub enum Operator<'c> {
    Select(Comparison),
    Project(&'c [u64]),
    Aggregate { column: usize, width: u64 },
}

/// The first of these columns that the table doesn't have, if there is one. Column 0 is the key.
fn lacked_column(table: &Table, columns: &[u64]) -> Option<u64>
    ensures { result ≡ lacked_column (layout_in table.now) columns.now }
{
    let last = table.columns() as u64;
    for column in columns {
        if last < *column {
            return Some(*column);
        }
    }
    None
}

/// The first column that the operator asks for and the table doesn't have, if there is one.
pub fn lacked(table: &Table, operator: Operator<'_>) -> Option<u64>
    ensures { result ≡ lacked_column (layout_in table.now) (columns_by operator.entry) }
{
    match operator {
        Operator::Select(comparison) => {
            let columns = [comparison.column as u64];
            lacked_column(table, &columns)
        }
        Operator::Project(columns) => lacked_column(table, columns),
        Operator::Aggregate { column, .. } => {
            let columns = [column as u64];
            lacked_column(table, &columns)
        }
    }
}

/// The column numbers as places.
fn places_of(columns: &[u64]) -> ArrayVec<usize, 8>
    requires { length columns.now ≤ 8 }
    ensures { result.items ≡ columns.now }
{
    let mut places = ArrayVec::new();
    for column in columns {
        places.push(*column as usize);
    }
    places
}

/// Lists what the operator makes of the rows of the range.
///
/// # Errors
///
/// The sink failed: a first part of what is told is written.
pub fn operate<F: Flash, K: Sink>(
    table: &Table,
    range: KeyRange,
    operator: Operator<'_>,
    flash: &mut F,
    buf: &mut Buffers,
    out: &mut K,
) -> Result<(), SinkFailed>
    requires running { is_running table.now ≡ true }
    requires lies { LiesOn table.now (F.state flash.old) }
    requires room { HasRooms buf.old (F.state flash.old).geometry.page }
    requires columns { lacked_column (layout_in table.now) (columns_by operator) ≡ None }
    requires fit { IsFit operator }
    ensures reads_only { OnlyReads (F.state flash.old) (F.state flash.new) }
    ensures lies { LiesOn table.now (F.state flash.new) }
    ensures room { HasRooms buf.new (F.state flash.old).geometry.page }
    ensures cause { HasCause (K.faults out.old) (K.faults out.new) result }
    ensures says { ListSays (AreLinesBy operator.entry range) (EndsRange range table.now (F.state flash.old) (F.state flash.new)) (K.written out.old) (K.written out.new) result }
    ensures counted { (first : ℕ) → (plan : Plan) → (t : model.Table) → IsTrue (F.state flash.old).media.tells → (F.state flash.old).is_on ≡ true → Stands table.now (F.state flash.old) first plan t →
        Counted (lines_by operator.entry plan (asked_records range t)) (scan_limit 64 plan t range None range.low) (least_reads plan t range None)
        (K.written out.old) (K.written out.new) (F.state flash.old).media.faults (F.state flash.new).media.faults (F.state flash.old).work.reads (F.state flash.new).work.reads result }
{
    let cursor = Cursor::begin(table, range, None, &mut buf.rows, &mut buf.index);
    let form = form_of(table);
    match operator {
        Operator::Select(comparison) => {
            let mut rows = Select::new(cursor, comparison.column, comparison.op, comparison.value);
            answer_lines(&mut rows, form, flash, out)
        }
        Operator::Project(columns) => {
            let places = places_of(columns);
            let mut fields = Project::new(cursor, places.as_slice());
            let form = RowForm {
                columns: places.len(),
                blobs: false,
            };
            answer_lines(&mut fields, form, flash, out)
        }
        Operator::Aggregate { column, width } => {
            let groups = Aggregate::new(cursor, column, width);
            let present = NO_GROUP;
            let mut lines = GroupLines { groups, present };
            answer_lines(&mut lines, form, flash, out)
        }
    }
}

/// Lists the pairs of rows of two tables that have one key in the range.
///
/// # Errors
///
/// The sink failed: a first part of what is told is written.
pub fn join<F: Flash, K: Sink>(
    left: &Table,
    right: &Table,
    range: KeyRange,
    flash: &mut F,
    buf: &mut Buffers,
    out: &mut K,
) -> Result<(), SinkFailed>
    requires left_running { is_running left.now ≡ true }
    requires right_running { is_running right.now ≡ true }
    requires left_lies { LiesOn left.now (F.state flash.old) }
    requires right_lies { LiesOn right.now (F.state flash.old) }
    requires room { HasRooms buf.old (F.state flash.old).geometry.page }
    ensures reads_only { OnlyReads (F.state flash.old) (F.state flash.new) }
    ensures room { HasRooms buf.new (F.state flash.old).geometry.page }
    ensures cause { HasCause (K.faults out.old) (K.faults out.new) result }
    ensures says { ListSays (AllByRecursion IsPair) (EndsPairs range left.now right.now (F.state flash.old) (F.state flash.new)) (K.written out.old) (K.written out.new) result }
    ensures counted { (first second : ℕ) → (a b : Plan) → (t u : model.Table) → IsTrue (F.state flash.old).media.tells → (F.state flash.old).is_on ≡ true →
        Stands left.now (F.state flash.old) first a t → Stands right.now (F.state flash.old) second b u →
        Counted (map pair_reply (operators.key_join (asked_records range t) (asked_records range u))) (scan_limit 64 a t range None range.low + scan_limit 64 b u range None range.low) 0
        (K.written out.old) (K.written out.new) (F.state flash.old).media.faults (F.state flash.new).media.faults (F.state flash.old).work.reads (F.state flash.new).work.reads result }
{
    let columns = (left.columns(), right.columns());
    let left_rows = Cursor::begin(left, range, None, &mut buf.rows, &mut buf.index);
    let right_rows = Cursor::begin(
        right,
        range,
        None,
        &mut buf.right_rows,
        &mut buf.right_index,
    );
    let mut pairs = PairLines {
        left: left_rows,
        right: right_rows,
        columns,
    };
    let form = form_of(left);
    answer_lines(&mut pairs, form, flash, out)
}
