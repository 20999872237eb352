// What is told of the tables of a configuration.
ghost use Rattle.std.specs.Prelude.{◌≡◌, ◌≤◌, ◌^◌, ◌++◌, length, IfSome, OnOk};
ghost use Rattle.fl_sizing.specs.Text.{figure_line, words_line, days_line, days_text, rows_text, rings_text, costs_text, named_text, device_figures};

use crate::sizes::TableSizes;
use fl_base::{Name, NoMemory};
use fl_script::TextLine;

/// A figure behind what it is.
pub(crate) fn add_figure(text: &mut Vec<u8>, what: &[u8], n: u64) -> Result<(), NoMemory>
    requires { length what.now ≤ 64 }
    ensures { OnOk result (text.new.items ≡ text.old.items ++ figure_line what.now n) }
{
    let mut line = TextLine::new();
    line.end_with_number(what, n);
    text.extend_from_slice(line.bytes())?;
    Ok(())
}

/// A line of words: a first one, and the others.
pub(crate) fn add_words(text: &mut Vec<u8>, first: &[u8], others: &[u8]) -> Result<(), NoMemory>
    requires first { length first.now ≤ 64 }
    requires others { length others.now ≤ 64 }
    ensures { OnOk result (text.new.items ≡ text.old.items ++ words_line (first.now ++ others.now)) }
{
    let mut line = TextLine::new();
    line.add(first);
    line.add(others);
    line.add(b"\n");
    text.extend_from_slice(line.bytes())?;
    Ok(())
}

/// So many tenths of a day.
fn add_tenths(text: &mut Vec<u8>, tenths: u64) -> Result<(), NoMemory>
    ensures { OnOk result (text.new.items ≡ text.old.items ++ days_line tenths) }
{
    let mut line = TextLine::new();
    line.add_number(b"  days kept of full pages ", tenths / 10);
    line.end_with_number(b".", tenths % 10);
    text.extend_from_slice(line.bytes())?;
    Ok(())
}

/// The days that so many rows take, where the seconds between two of them are told.
fn add_days(text: &mut Vec<u8>, interval: Option<u64>, rows: u64) -> Result<(), NoMemory>
    requires rows { rows ≤ 2 ^ 34 }
    requires interval { IfSome interval (λ seconds. seconds ≤ 1000000) }
    ensures { OnOk result (text.new.items ≡ text.old.items ++ days_text interval rows) }
{
    match interval {
        Some(seconds) => add_tenths(text, rows * seconds / 8640),
        None => Ok(()),
    }
}

/// The figures of rows.
fn add_rows(text: &mut Vec<u8>, interval: Option<u64>, sizes: &TableSizes) -> Result<(), NoMemory>
    requires rows { sizes.now.rows_kept ≤ 2 ^ 34 }
    requires interval { IfSome interval (λ seconds. seconds ≤ 1000000) }
    ensures { OnOk result (text.new.items ≡ text.old.items ++ rows_text interval sizes.now) }
{
    add_figure(text, b"  bytes a row ", sizes.row_bytes)?;
    add_figure(text, b"  rows a page ", sizes.rows_per_page)?;
    add_figure(text, b"  pages always kept ", sizes.pages_kept)?;
    add_figure(text, b"  rows kept of full pages ", sizes.rows_kept)?;
    add_days(text, interval, sizes.rows_kept)
}

/// The figures of the other rings.
fn add_rings(text: &mut Vec<u8>, sizes: &TableSizes) -> Result<(), NoMemory>
    ensures { OnOk result (text.new.items ≡ text.old.items ++ rings_text sizes.now) }
{
    add_figure(text, b"  index pages wanted ", sizes.index_pages)?;
    add_figure(text, b"  index blocks wanted ", sizes.index_blocks)?;
    add_figure(text, b"  bytes kept of full blob pages ", sizes.blob_bytes)
}

/// The figures of memory and of a mount.
fn add_costs(text: &mut Vec<u8>, sizes: &TableSizes) -> Result<(), NoMemory>
    ensures { OnOk result (text.new.items ≡ text.old.items ++ costs_text sizes.now) }
{
    add_figure(text, b"  bytes of memory ", sizes.memory)?;
    add_figure(
        text,
        b"  reads of a mount without void pages ",
        sizes.full_reads,
    )?;
    add_figure(text, b"  reads of a mount at most ", sizes.most_reads)
}

/// The figures of a table.
pub(crate) fn add_table(
    text: &mut Vec<u8>,
    interval: Option<u64>,
    name: &Name,
    sizes: &TableSizes,
) -> Result<(), NoMemory>
    requires rows { sizes.now.rows_kept ≤ 2 ^ 34 }
    requires interval { IfSome interval (λ seconds. seconds ≤ 1000000) }
    ensures { OnOk result (text.new.items ≡ text.old.items ++ named_text interval name.now sizes.now) }
{
    add_words(text, b"table ", name.bytes())?;
    add_rows(text, interval, sizes)?;
    add_rings(text, sizes)?;
    add_costs(text, sizes)
}

/// The figures of a device.
pub(crate) fn add_device(
    text: &mut Vec<u8>,
    blocks: u64,
    wanted: u64,
    memory: u64,
) -> Result<(), NoMemory>
    ensures { OnOk result (text.new.items ≡ text.old.items ++ device_figures blocks wanted memory) }
{
    add_words(text, b"device", b"")?;
    add_figure(text, b"  blocks ", blocks)?;
    add_figure(text, b"  blocks wanted ", wanted)?;
    add_figure(text, b"  bytes of memory ", memory)
}
