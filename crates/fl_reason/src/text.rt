// Reasons in words.
use crate::config::{ConfigLine, ConfigReason};
use crate::form::form_of;
use crate::header::HeaderReason;
use crate::line::{LineReason, Misfit, Shape};
use crate::wanted::Wanted;
use fl_plan::ConfigRefusal;
use std::fmt::{self, Display};

/// Why a script is refused.
#[derive(Clone, Copy)]
pub enum Reason {
    /// A line is no command.
    Line(LineReason),
    /// A line of the configuration is refused.
    Config(ConfigReason),
    /// The image has another configuration.
    Header(HeaderReason),
}

impl Display for Reason {
    fn fmt<W: fmt::Write>(&self, f: &mut fmt::Formatter<W>) -> fmt::Result {
        match self {
            Reason::Line(reason) => reason.fmt(f),
            Reason::Config(reason) => reason.fmt(f),
            Reason::Header(reason) => reason.fmt(f),
        }
    }
}

impl Wanted {
    // What it is in words; a number is told with its bounds.
    fn text(self) -> &'static str {
        match self {
            Wanted::Name => "a name: 1 to 8 of a-z and 0-9, beginning with a letter",
            Wanted::Number { .. } => "a number",
            Wanted::Signed => "a number from -9223372036854775808 to 9223372036854775807",
            Wanted::Cursor => "a cursor: 0, 1, 2 or 3",
            Wanted::Comparison => "one of lt, le, eq, ne, ge and gt",
            Wanted::Cut => "one of before, after, half and noise",
            Wanted::Columns => "1 to 8 numbers of columns, joined by commas",
            Wanted::Blob => "- or an even number of hexadecimal digits",
            Wanted::Ending => "index2 or rlc, or to be left out",
            Wanted::Log => "rlc, or to be left out",
            Wanted::Nothing => "left out",
        }
    }
}

impl Display for Wanted {
    fn fmt<W: fmt::Write>(&self, f: &mut fmt::Formatter<W>) -> fmt::Result {
        match self {
            Wanted::Number { least, greatest } => {
                write!(f, "a number from {least} to {greatest}")
            }
            other => f.write_str(other.text()),
        }
    }
}

impl Display for Misfit {
    fn fmt<W: fmt::Write>(&self, f: &mut fmt::Formatter<W>) -> fmt::Result {
        let Misfit {
            number,
            word,
            wanted,
        } = self;
        write!(f, "word {number} is {word} and has to be {wanted}")
    }
}

impl Display for Shape {
    fn fmt<W: fmt::Write>(&self, f: &mut fmt::Formatter<W>) -> fmt::Result {
        let Shape {
            words,
            command,
            misfit,
        } = self;
        let form = form_of(command.bytes()).unwrap_or("");
        match misfit {
            Some(misfit) => write!(f, "{misfit}; the form is {form}"),
            None => write!(f, "words are {words}, and the form is {form}"),
        }
    }
}

impl Display for LineReason {
    fn fmt<W: fmt::Write>(&self, f: &mut fmt::Formatter<W>) -> fmt::Result {
        match self {
            LineReason::TooLong => f.write_str("it has more than 4096 bytes"),
            LineReason::Unknown { word } => write!(f, "there is no command {word}"),
            LineReason::Form(shape) => shape.fmt(f),
            LineReason::Number(shape) => shape.fmt(f),
            LineReason::Late => {
                f.write_str("device and table lines come before the first command")
            }
        }
    }
}

// What a refusal tells, where it names one number at most: the texts in front of the number and behind it.
const TEXTS: [(ConfigRefusal, &str, &str); 18] = [
    (
        ConfigRefusal::DeviceTwice,
        "there is a device line before it",
        "",
    ),
    (
        ConfigRefusal::TableFirst,
        "a device line has to come before it",
        "",
    ),
    (
        ConfigRefusal::PageSize,
        "PAGE is ",
        " and has to be 64 to 4096 and a multiple of 8",
    ),
    (
        ConfigRefusal::BlockSize,
        "BLOCK is ",
        " and has to be 2 to 256",
    ),
    (
        ConfigRefusal::TooManyTables,
        "there are four tables before it",
        "",
    ),
    (
        ConfigRefusal::NameTaken,
        "a table before it has the same NAME",
        "",
    ),
    (
        ConfigRefusal::KeyWidth,
        "KEY is ",
        " bytes and has to be 4 or 8",
    ),
    (
        ConfigRefusal::ColumnCount,
        "COLUMNS are ",
        " and have to be 1 to 8",
    ),
    (
        ConfigRefusal::DataBlocks,
        "DATA is ",
        " and has to be 3 to 16384 blocks",
    ),
    (
        ConfigRefusal::IndexBlocks,
        "INDEX is ",
        " and has to be 0, or 3 to 16384 blocks",
    ),
    (
        ConfigRefusal::VarBlocks,
        "VAR is ",
        " and has to be 0, or 3 to 16384 blocks",
    ),
    (
        ConfigRefusal::Bits,
        "BITS is ",
        " and has to be 0, 8, 16 or 64",
    ),
    (
        ConfigRefusal::Width,
        "WIDTH is ",
        " and has to be 1 to 9223372036854775807",
    ),
    (
        ConfigRefusal::ErrorBound,
        "ERROR is ",
        " and has to be 0 to 255",
    ),
    (
        ConfigRefusal::Format,
        "index2 needs an index ring: INDEX is ",
        " and has to be 3 to 16384 blocks, or index2 has to be left out",
    ),
    (
        ConfigRefusal::LogBlocks,
        "LOG is ",
        " and has to be 3 to 16384 blocks",
    ),
    (
        ConfigRefusal::LogVar,
        "rlc needs a table without variable data: VAR is ",
        " and has to be 0, or rlc and LOG have to be left out",
    ),
    (ConfigRefusal::NoMemory, "there is no memory", ""),
];

// The two texts of a refusal that names one number at most.
fn texts_of(refusal: ConfigRefusal) -> (&'static str, &'static str) {
    for (other, front, behind) in &TEXTS {
        if *other == refusal {
            return (front, behind);
        }
    }
    ("", "")
}

// The number that a refusal names, where it names one.
fn number_of(refusal: ConfigRefusal, line: &ConfigLine) -> Option<u64> {
    match refusal {
        ConfigRefusal::PageSize => Some(line.page),
        ConfigRefusal::BlockSize => Some(line.block),
        ConfigRefusal::KeyWidth => Some(line.key),
        ConfigRefusal::ColumnCount => Some(line.columns as u64),
        ConfigRefusal::DataBlocks => Some(line.rows),
        ConfigRefusal::IndexBlocks | ConfigRefusal::Format => Some(line.index),
        ConfigRefusal::VarBlocks | ConfigRefusal::LogVar => Some(line.var),
        ConfigRefusal::Bits => Some(line.bits),
        ConfigRefusal::Width => Some(line.width),
        ConfigRefusal::ErrorBound => Some(line.error),
        ConfigRefusal::LogBlocks => Some(line.log),
        _ => None,
    }
}

impl Display for ConfigReason {
    fn fmt<W: fmt::Write>(&self, f: &mut fmt::Formatter<W>) -> fmt::Result {
        let line = &self.line;
        match self.refusal {
            ConfigRefusal::ColumnType => fmt_column(line, f),
            ConfigRefusal::Bits if line.bits == 0 => fmt_no_bits(line, f),
            ConfigRefusal::BlobLimit => fmt_blob(line, f),
            ConfigRefusal::RowTooLong => fmt_long_row(line, f),
            ConfigRefusal::DeviceTooLarge => fmt_large(line, f),
            refusal => fmt_simple(refusal, line, f),
        }
    }
}

// A refusal that names one number at most.
fn fmt_simple<W: fmt::Write>(
    refusal: ConfigRefusal,
    line: &ConfigLine,
    f: &mut fmt::Formatter<W>,
) -> fmt::Result {
    let (front, behind) = texts_of(refusal);
    match number_of(refusal, line) {
        Some(number) => write!(f, "{front}{number}{behind}"),
        None => f.write_str(front),
    }
}

// The first word that is no type of a column.
fn fmt_column<W: fmt::Write>(line: &ConfigLine, f: &mut fmt::Formatter<W>) -> fmt::Result {
    match &line.no_type {
        Some(word) => write!(
            f,
            "a column is {word} and has to be one of u8 i8 u16 i16 u32 i32 i64"
        ),
        None => fmt_simple(ConfigRefusal::ColumnCount, line, f),
    }
}

// An index ring without bitmaps.
fn fmt_no_bits<W: fmt::Write>(line: &ConfigLine, f: &mut fmt::Formatter<W>) -> fmt::Result {
    let index = line.index;
    write!(
        f,
        "an index ring of {index} blocks needs BITS of 8, 16 or 64"
    )
}

// The greatest length of a blob, by the ring that keeps it.
fn fmt_blob<W: fmt::Write>(line: &ConfigLine, f: &mut fmt::Formatter<W>) -> fmt::Result {
    let ConfigLine {
        page,
        block,
        var,
        blob,
        ..
    } = line;
    if *var == 0 {
        return write!(
            f,
            "longest blob {blob} needs a ring of variable data of at least 3 blocks"
        );
    }
    let pages = var
        .saturating_sub(1)
        .saturating_mul(*block)
        .saturating_sub(2);
    let most = page.saturating_sub(16).saturating_mul(pages).min(1500);
    write!(
        f,
        "longest blob is {blob}, and {var} blocks of variable data keep blobs of 1 to {most} bytes"
    )
}

// A row that is longer than a page has room for.
fn fmt_long_row<W: fmt::Write>(line: &ConfigLine, f: &mut fmt::Formatter<W>) -> fmt::Result {
    let ConfigLine { page, row, .. } = line;
    let most = page.saturating_sub(24);
    write!(
        f,
        "a row has {row} bytes, and a page of {page} has room for {most}"
    )
}

// All rings together.
fn fmt_large<W: fmt::Write>(line: &ConfigLine, f: &mut fmt::Formatter<W>) -> fmt::Result {
    let ConfigLine {
        page,
        block,
        blocks,
        rows,
        index,
        var,
        log,
        ..
    } = line;
    let blocks = blocks
        .saturating_add(*rows)
        .saturating_add(*index)
        .saturating_add(*var)
        .saturating_add(*log);
    write!(
        f,
        "all rings have {blocks} blocks of {block} pages of {page} bytes; at most 65536 pages and 67108864 bytes fit"
    )
}

impl Display for HeaderReason {
    fn fmt<W: fmt::Write>(&self, f: &mut fmt::Formatter<W>) -> fmt::Result {
        match self {
            HeaderReason::Length { image, script } => {
                write!(
                    f,
                    "the image has {image} bytes, and the script's configuration makes {script}"
                )
            }
            HeaderReason::Word {
                line,
                place,
                image,
                script,
            } => write!(
                f,
                "line {line} of the configuration: {place} is {image} in the image and {script} in the script"
            ),
        }
    }
}
