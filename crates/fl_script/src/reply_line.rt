// Replies as lines of text.
ghost use Rattle.std.specs.Prelude.{◌≡◌, ◌≤◌, [], false, length};
ghost use Rattle.fl_words.specs.Reply as reply;
ghost use Rattle.fl_script.specs.ReplyView.{is_row, reply_text};

use crate::{Reply, TextLine};
use fl_base::Name;

fn add_fields(line: &mut TextLine, fields: &[i128])
    requires empty { line.old ≡ [] }
    requires few { length fields.now ≤ 8 }
    ensures { line.new ≡ reply.text (reply.Fields fields.now) }
{
    line.add(b"row");
    line.add_numbers(fields);
    line.add(b"\n");
}

fn add_pair(line: &mut TextLine, key: u64, left: &[i64], right: &[i64])
    requires empty { line.old ≡ [] }
    requires few { (length left.now ≤ 8) × (length right.now ≤ 8) }
    ensures { line.new ≡ reply.text (reply.Pair key left.now right.now) }
{
    line.add_number(b"pair ", key);
    line.add_numbers(left);
    line.add_numbers(right);
    line.add(b"\n");
}

fn add_group(
    line: &mut TextLine,
    group: u64,
    count: u64,
    least: i128,
    greatest: i128,
    sum: i128,
    mean: i128,
)
    requires { line.old ≡ [] }
    ensures { line.new ≡ reply.text (reply.Group group count least greatest sum mean) }
{
    line.add_number(b"group ", group);
    line.add_number(b" count ", count);
    line.add_number(b" least ", least);
    line.add_number(b" greatest ", greatest);
    line.add_number(b" sum ", sum);
    line.end_with_number(b" mean ", mean);
}

fn add_stat(
    line: &mut TextLine,
    rows: u64,
    pending: u32,
    pages: u32,
    voids: u32,
    programs: u64,
    erases: u64,
)
    requires { line.old ≡ [] }
    ensures { line.new ≡ reply.text (reply.Stat rows pending pages voids programs erases) }
{
    line.add_number(b"stat rows ", rows);
    line.add_number(b" pending ", pending);
    line.add_number(b" pages ", pages);
    line.add_number(b" voids ", voids);
    line.add_number(b" programs ", programs);
    line.end_with_number(b" erases ", erases);
}

/// The whole text of a reply that isn't a row.
pub(crate) fn add_reply(line: &mut TextLine, reply: &Reply)
    requires empty { line.old ≡ [] }
    requires other { is_row reply.now ≡ false }
    ensures { line.new ≡ reply_text reply.now }
{
    match reply {
        Reply::Done => line.add(b"ok\n"),
        Reply::AlreadyMounted => line.add(b"already mounted\n"),
        Reply::NotMounted => line.add(b"not mounted\n"),
        Reply::NoTable => line.add(b"no table\n"),
        Reply::NoCursor => line.add(b"no cursor\n"),
        Reply::NoColumn { column } => line.end_with_number(b"no column ", *column),
        Reply::RefusedKey { last } => line.end_with_number(b"refused key ", *last),
        Reply::RefusedColumns { wanted } => line.end_with_number(b"refused columns ", *wanted),
        Reply::RefusedValue { column } => line.end_with_number(b"refused value ", *column),
        Reply::RefusedBlob { limit } => line.end_with_number(b"refused blob ", *limit),
        Reply::RefusedSpent => line.add(b"refused spent\n"),
        Reply::PowerLost => line.add(b"power lost\n"),
        Reply::DeviceFault => line.add(b"device fault\n"),
        Reply::BadImage { name } => add_bad_image(line, name),
        Reply::Row { .. } => unreachable!(),
        Reply::Fields { fields } => add_fields(line, fields.as_slice()),
        Reply::Absent => line.add(b"none\n"),
        Reply::BytesBegin => line.add(b"bytes "),
        Reply::BytesEmpty => line.add(b"bytes -\n"),
        Reply::LineEnd => line.add(b"\n"),
        Reply::NoBlob => line.add(b"no blob\n"),
        Reply::Gone => line.add(b"gone\n"),
        Reply::Group {
            group,
            count,
            least,
            greatest,
            sum,
            mean,
        } => { add_group(line, *group, *count, *least, *greatest, *sum, *mean) }
        Reply::Pair { key, left, right } => {
            add_pair(line, *key, left.as_slice(), right.as_slice())
        }
        Reply::EndCount { count } => line.end_with_number(b"end ", *count),
        Reply::More => line.add(b"more\n"),
        Reply::CursorEnd => line.add(b"end\n"),
        Reply::ReadFault => line.add(b"read fault\n"),
        Reply::BadPage { number } => line.end_with_number(b"bad page ", *number),
        Reply::Stat {
            rows,
            pending,
            pages,
            voids,
            programs,
            erases,
        } => { add_stat(line, *rows, *pending, *pages, *voids, *programs, *erases) }
        Reply::CostGet { reads, limit } => add_cost(line, *reads, *limit),
        Reply::CostScan { reads } => line.end_with_number(b"cost ", *reads),
        Reply::NoCost => line.add(b"no cost\n"),
        Reply::Loaded { count } => line.end_with_number(b"loaded ", *count),
    }
}

fn add_bad_image(line: &mut TextLine, name: &Name)
    requires { line.old ≡ [] }
    ensures { line.new ≡ reply.text (reply.BadImage name.now) }
{
    line.add(b"bad image ");
    line.add(name.bytes());
    line.add(b"\n");
}

fn add_cost(line: &mut TextLine, reads: u64, limit: u64)
    requires { line.old ≡ [] }
    ensures { line.new ≡ reply.text (reply.CostGet reads limit) }
{
    line.add_number(b"cost ", reads);
    line.end_with_number(b" ", limit);
}
