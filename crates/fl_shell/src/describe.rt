// What a shell tells of its image: the lines of its configuration, and below that of each table what it holds.
ghost use Rattle.std.specs.Prelude.{◌≡◌, ◌≤◌, ◌<◌, ◌+◌, ◌*◌, ◌++◌, [], length, slice_get, true, Some, IfSome, IsTrue};
ghost use Rattle.fl_base.specs.Causes.{HasCause};
ghost use Rattle.fl_config.specs.Whole.{is_whole, Makes};
ghost use Rattle.fl_flash.specs.Flash.{Stays};
ghost use Rattle.fl_machine.specs.Machine.{Machine};
ghost use Rattle.fl_machine.specs.Step.{Located, located};
ghost use Rattle.fl_model.specs.Record.{Config as Configuration};
ghost use Rattle.fl_plan.specs.Limits.{IsWithinLimits};
ghost use Rattle.fl_plan.specs.Plan.{Label, blocks_in, plan_of_table, with_log};
ghost use Rattle.fl_session.specs.Caused.{OnlyLooks};
ghost use Rattle.fl_shell.specs.Beside.{AddsBlobs, TellsBeside, WritesTable};
ghost use Rattle.fl_shell.specs.Caused.{WritesSome};
ghost use Rattle.fl_shell.specs.Talk.{counts_text, held_in, key_line, ring_text, rings_text, sizes_text};
ghost use Rattle.fl_shell.specs.Turning.{Describes};
ghost use Rattle.fl_sizing.specs.Text.{figure_line};

use fl_base::{Geometry, Name, RingPlace, Sink, SinkFailed};
use fl_config::Config;
use fl_plan::TableConfig;
use fl_rlc::RingCounts;
use fl_script::{LINE_BYTES, Reply, TextLine, write_all, write_reply};
use fl_session::Executor;
use fl_sizing::TableSizes;
use fl_table::TableCounts;

/// A figure behind what it is, as a line.
fn add_figure(text: &mut TextLine, what: &[u8], n: u64)
    requires { length text.old + length what.now + 21 ≤ LINE_BYTES }
    ensures text { text.new ≡ text.old ++ figure_line what.now n }
    ensures short { length text.new ≤ length text.old + length what.now + 21 }
{
    text.add_number(what, n);
    text.add(b"\n");
}

/// How much a table holds, and how many pages of its data ring are free.
fn add_counts(text: &mut TextLine, counts: &TableCounts, pages: u64)
    requires { length text.old ≤ 100 }
    ensures text { text.new ≡ text.old ++ counts_text counts.now pages }
    ensures short { length text.new ≤ length text.old + 180 }
{
    let kept = u64::from(counts.pages);
    add_figure(text, b"  rows kept ", counts.rows);
    add_figure(text, b"  rows pending ", u64::from(counts.pending));
    add_figure(text, b"  pages kept ", kept);
    add_figure(text, b"  pages void ", u64::from(counts.voids));
    add_figure(text, b"  pages free ", pages.saturating_sub(kept));
}

/// The last key of a table.
fn add_last(text: &mut TextLine, key: Option<u64>)
    requires { length text.old ≤ 300 }
    ensures { text.new ≡ text.old ++ key_line key }
{
    match key {
        Some(key) => add_figure(text, b"  last key ", key),
        None => text.add(b"  last key none\n"),
    }
}

/// How many rows a page of the table has room for, and how many are always kept.
fn add_sizes(text: &mut TextLine, table: &TableConfig)
    requires empty { text.old ≡ [] }
    requires limits { IsWithinLimits table.now }
    ensures text { (label : Label) → text.new ≡ sizes_text (plan_of_table label table.now) }
    ensures short { length text.new ≤ 100 }
{
    let sizes = TableSizes::of(table, None);
    add_figure(text, b"  rows a page ", sizes.rows_per_page);
    add_figure(text, b"  rows always kept of full pages ", sizes.rows_kept);
}

/// The blocks of a ring; none where there is no ring.
fn blocks_in(place: Option<RingPlace>) -> u32
    ensures { result ≡ blocks_in place }
{
    place.map_or(0, |place| place.blocks)
}

/// The pages of a ring of so many blocks.
fn ring_pages(blocks: u32, geometry: Geometry) -> u64
    ensures { result ≡ blocks * geometry.block }
{
    u64::from(blocks) * u64::from(geometry.block)
}

/// How many rows a page of the table has room for, and what it holds, while it is mounted.
fn held<E: Executor>(session: &E, name: Name, table: &TableConfig) -> TextLine
    requires { IsWithinLimits table.now }
    ensures { (label : Label) (config : Configuration) (m : Machine) → E.stands session.now config m →
        result ≡ sizes_text (plan_of_table label table.now) ++ held_in config m (plan_of_table label table.now) name }
{
    let mut text = TextLine::new();
    add_sizes(&mut text, table);
    let counts = match session.counts(name) {
        Ok(counts) => counts,
        Err(_) => return text,
    };
    let pages = ring_pages(table.rows.blocks, table.geometry);
    add_counts(&mut text, &counts, pages);
    let key = match session.last_key(name) {
        Ok(key) => key,
        Err(_) => return text,
    };
    add_last(&mut text, key);
    text
}

/// How many pages a ring of so many pages keeps and how many are free, if there is such a ring.
fn add_ring(text: &mut TextLine, kept_is: &[u8], free_is: &[u8], pages: u64, kept: Option<u32>)
    requires { length text.old + length kept_is.now + length free_is.now + 42 ≤ LINE_BYTES }
    ensures text { text.new ≡ text.old ++ ring_text kept_is.now free_is.now pages kept }
    ensures short { length text.new ≤ length text.old + length kept_is.now + length free_is.now + 42 }
{
    let Some(kept) = kept else {
        return;
    };
    let kept = u64::from(kept);
    add_figure(text, kept_is, kept);
    add_figure(text, free_is, pages.saturating_sub(kept));
}

/// How many pages the rings of a table keep beside that of its data, and how many of theirs are free.
fn add_rings(text: &mut TextLine, rings: &RingCounts, table: &TableConfig, log_blocks: u32)
    requires empty { text.old ≡ [] }
    ensures text { (label : Label) → text.new ≡ rings_text (with_log log_blocks (plan_of_table label table.now)) rings.now }
    ensures short { length text.new ≤ 250 }
{
    let index = ring_pages(table.index_blocks(), table.geometry);
    let blobs = ring_pages(table.var_blocks(), table.geometry);
    let log = ring_pages(log_blocks, table.geometry);
    add_ring(
        text,
        b"  index pages kept ",
        b"  index pages free ",
        index,
        rings.table.index,
    );
    add_ring(
        text,
        b"  blob pages kept ",
        b"  blob pages free ",
        blobs,
        rings.table.blobs,
    );
    add_ring(
        text,
        b"  log pages kept ",
        b"  log pages free ",
        log,
        rings.log,
    );
}

/// The key of the oldest record whose blob isn't gone, if the table may have blobs; or that a page isn't read.
fn add_blobs<E: Executor>(session: &mut E, name: Name, table: &TableConfig, text: &mut TextLine)
    requires sound { E.sound session.old }
    requires short { length text.old ≤ 300 }
    ensures sound { E.sound session.new }
    ensures goes { Stays (E.flash session.old) (E.flash session.new) }
    ensures looks { OnlyLooks (E.state session.old) (E.state session.new) (E.state session.old).notes }
    ensures text { (label : Label) (config : Configuration) (m : Machine) (at : Located) → E.stands session.old config m → m.mounted ≡ true → located config m name ≡ Some at →
        AddsBlobs config m (plan_of_table label table.now) at.table (E.stands session.new config) (E.flash session.old) (E.flash session.new) text.old text.new }
{
    if table.var_blocks() == 0 {
        return;
    }
    match session.oldest_blob(name) {
        Ok(Some(key)) => add_figure(text, b"  oldest blob ", key),
        Ok(None) => text.add(b"  oldest blob none\n"),
        Err(_) => text.add(b"  oldest blob read fault\n"),
    }
}

/// What the other rings of a table keep, and its oldest blob, while it is mounted.
fn beside<E: Executor>(
    session: &mut E,
    name: Name,
    table: &TableConfig,
    log_blocks: u32,
) -> TextLine
    requires { E.sound session.old }
    ensures sound { E.sound session.new }
    ensures goes { Stays (E.flash session.old) (E.flash session.new) }
    ensures looks { OnlyLooks (E.state session.old) (E.state session.new) (E.state session.old).notes }
    ensures tells { (label : Label) (config : Configuration) (m : Machine) → E.stands session.old config m →
        TellsBeside config m (with_log log_blocks (plan_of_table label table.now)) name (E.stands session.new config) (E.flash session.old) (E.flash session.new) result }
{
    let mut text = TextLine::new();
    let rings = match session.rings(name) {
        Ok(rings) => rings,
        Err(_) => return text,
    };
    add_rings(&mut text, &rings, table, log_blocks);
    add_blobs(session, name, table, &mut text);
    text
}

/// The line of a table, and below it what it holds.
fn write_table<E: Executor, K: Sink>(
    session: &mut E,
    config: &Config,
    at: usize,
    out: &mut K,
) -> Result<(), SinkFailed>
    requires sound { E.sound session.old }
    requires within { at < length config.now.plans }
    ensures sound { E.sound session.new }
    ensures goes { Stays (E.flash session.old) (E.flash session.new) }
    ensures looks { OnlyLooks (E.state session.old) (E.state session.new) (E.state session.old).notes }
    ensures told { WritesSome (K.written out.old) (K.written out.new) result }
    ensures text { (configured : Configuration) (m : Machine) → E.stands session.old configured m →
        IfSome (slice_get config.now.plans at) (λ plan. WritesTable configured m plan (E.stands session.new configured) (E.flash session.old) (E.flash session.new) (K.written out.old) (K.written out.new) result) }
    ensures cause { HasCause (K.faults out.old) (K.faults out.new) result }
{
    write_all(config.table_line(at).bytes(), out)?;
    let name = config.name(at);
    let table = config.table(at);
    let figures = held(session, name, table);
    write_all(figures.bytes(), out)?;
    let log_blocks = blocks_in(config.log(at));
    let rings = beside(session, name, table, log_blocks);
    write_all(rings.bytes(), out)
}

/// Tells the lines of the configuration, below that of each table what it holds, and their number.
pub(crate) fn describe<E: Executor, K: Sink>(
    session: &mut E,
    config: &Config,
    out: &mut K,
) -> Result<(), SinkFailed>
    requires sound { E.sound session.old }
    requires whole { IsTrue (is_whole config.now) }
    ensures sound { E.sound session.new }
    ensures goes { Stays (E.flash session.old) (E.flash session.new) }
    ensures looks { OnlyLooks (E.state session.old) (E.state session.new) (E.state session.old).notes }
    ensures told { WritesSome (K.written out.old) (K.written out.new) result }
    ensures text { (configured : Configuration) (m : Machine) → Makes config.now configured → E.stands session.old configured m →
        Describes configured m (E.stands session.new configured) (E.flash session.old) (E.flash session.new) (K.written out.old) (K.written out.new) result }
    ensures cause { HasCause (K.faults out.old) (K.faults out.new) result }
{
    write_all(config.device_line().bytes(), out)?;
    'tables: for at in 0..config.tables() {
        write_table(session, config, at, out)?;
    }
    let count = config.tables() as u64;
    write_reply(&Reply::EndCount { count }, out)
}
