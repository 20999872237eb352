// The words of the command line that name a job.
ghost use Rattle.std.specs.Prelude.{◌≡◌, ◌≤◌, ◌∷◌, [], length, map, string_bytes, codes, IfSome, MatchOption, true, false, Ok, Err, if◌then◌else◌, ◌&&◌, Some, None};
ghost use Rattle.fl_csv.specs.declared.record.GoneBlobs.{GoneBlobs};
ghost use Rattle.fl_ends.specs.Words.{is_image_name};
ghost use Rattle.fl_model.specs.Record.{bytes_equal};
ghost use Rattle.fl_words.specs.Grammar as grammar;
ghost use Rattle.fl_command.specs.Words.{alone_named, export_named, job_named, short_named, table_named};
ghost use Rattle.fl_command.specs.declared.words.ToolJob.{ToolJob};

use fl_base::{KeyRange, Name};
use fl_csv::GoneBlobs;
use fl_ends::names_image;
use fl_map::Drawing;

/// A job over an image, whose name is the second word.
#[derive(Clone, Copy)]
pub enum ToolJob {
    /// Tells whether each table of the image is sound, up to the first that isn't.
    Check,
    /// Tells it of all tables.
    CheckAll,
    /// Writes the records of a table whose keys are in the range.
    Export { name: Name, range: KeyRange },
    /// Puts the records of an input into a table.
    Import { name: Name, gone: GoneBlobs },
    /// Writes the records of a table that are still there, whatever else is damaged.
    Salvage { name: Name },
    /// Draws the pages of the image.
    Map { drawing: Drawing },
}

/// The range of all keys.
const ALL_KEYS: KeyRange = KeyRange {
    low: 0,
    high: u64::MAX,
};

pub(crate) fn is_word(word: &str, wanted: &str) -> bool
    ensures { result ≡ bytes_equal word.now wanted.now }
{
    word == wanted
}

/// The name of a table that the word is.
pub(crate) fn name(word: &str) -> Option<Name>
    ensures { MatchOption result (grammar.is_name word.now ≡ false) (λ name. (grammar.is_name word.now ≡ true) × (name ≡ word.now)) }
{
    Name::of(word.as_bytes())
}

/// The number that the word is. It has no sign, and `parse` takes a plus.
pub(crate) fn number(word: &str) -> Option<u64>
    ensures { MatchOption result (grammar.number word.now ≡ Err grammar.Number) (λ value. grammar.number word.now ≡ Ok value) }
{
    if word.as_bytes().starts_with(b"+") {
        return None;
    }
    word.parse().ok()
}

/// An export of the table with this name.
fn export(name_word: &str, low: &str, high: &str) -> Option<ToolJob>
    ensures { result ≡ (if grammar.is_name name_word.now then export_named name_word.now (grammar.number low.now) (grammar.number high.now) else None) }
{
    let name = name(name_word)?;
    let low = number(low)?;
    let high = number(high)?;
    let range = KeyRange { low, high };
    Some(ToolJob::Export { name, range })
}

/// The job over an image that a word alone names.
fn alone_job(word: &str) -> Option<ToolJob>
    ensures { result ≡ alone_named word.now }
{
    if is_word(word, "check") {
        return Some(ToolJob::Check);
    }
    if is_word(word, "map") {
        let drawing = Drawing::Text;
        return Some(ToolJob::Map { drawing });
    }
    None
}

/// The job that two words name.
fn alone_of(words: &[String]) -> Option<ToolJob>
    requires { length words.now ≡ 2 }
    ensures { result ≡ job_named (map (λ word. string_bytes word) words.now) }
{
    if !names_image(words[1].as_str()) {
        return None;
    }
    alone_job(words[0].as_str())
}

/// The job over all that a table has, by its first word.
fn table_job(word: &str, name: Name) -> Option<ToolJob>
    ensures { result ≡ table_named word.now name }
{
    if is_word(word, "import") {
        let gone = GoneBlobs::Refused;
        return Some(ToolJob::Import { name, gone });
    }
    if is_word(word, "export") {
        let range = ALL_KEYS;
        return Some(ToolJob::Export { name, range });
    }
    if is_word(word, "salvage") {
        return Some(ToolJob::Salvage { name });
    }
    None
}

/// The job that a first and a third word name.
fn short_job(word: &str, last: &str) -> Option<ToolJob>
    ensures { result ≡ short_named word.now last.now }
{
    if is_word(word, "check") {
        return is_word(last, "all").then_some(ToolJob::CheckAll);
    }
    if is_word(word, "map") {
        let drawing = Drawing::Svg;
        return is_word(last, "svg").then_some(ToolJob::Map { drawing });
    }
    let name = name(last)?;
    table_job(word, name)
}

/// The job that three words name.
fn short_of(words: &[String]) -> Option<ToolJob>
    requires { length words.now ≡ 3 }
    ensures { result ≡ job_named (map (λ word. string_bytes word) words.now) }
{
    if !names_image(words[1].as_str()) {
        return None;
    }
    short_job(words[0].as_str(), words[2].as_str())
}

/// An import into the table with this name, without blobs that are gone.
fn import(name_word: &str, last: &str) -> Option<ToolJob>
    ensures { result ≡ (if grammar.is_name name_word.now && bytes_equal last.now (codes "gone") then Some (ToolJob.Import name_word.now GoneBlobs.LeftOut) else None) }
{
    let name = name(name_word)?;
    let gone = GoneBlobs::LeftOut;
    is_word(last, "gone").then_some(ToolJob::Import { name, gone })
}

/// The import without blobs that are gone, where the words name it.
fn import_of(words: &[String]) -> Option<ToolJob>
    requires { length words.now ≡ 4 }
    ensures { result ≡ job_named (map (λ word. string_bytes word) words.now) }
{
    if !is_word(words[0].as_str(), "import") {
        return None;
    }
    if !names_image(words[1].as_str()) {
        return None;
    }
    import(words[2].as_str(), words[3].as_str())
}

/// The export that the words name.
fn export_of(words: &[String]) -> Option<ToolJob>
    requires { length words.now ≡ 5 }
    ensures { result ≡ job_named (map (λ word. string_bytes word) words.now) }
{
    if !is_word(words[0].as_str(), "export") {
        return None;
    }
    if !names_image(words[1].as_str()) {
        return None;
    }
    export(words[2].as_str(), words[3].as_str(), words[4].as_str())
}

/// The job that the words name: `check` and an image, and `all` for all of its tables; `map` and an image, and `svg` for a picture;
/// `import`, an image and a table, and `gone` where blobs that are gone are left out; `salvage`, an image and a table; or `export`,
/// an image and a table, and the lowest and the greatest key, without which all records are written. An image is a word that isn't
/// empty and doesn't begin with a dash; names of tables and numbers are those of a script.
pub fn tool_of(words: &[String]) -> Option<ToolJob>
    ensures exact { result ≡ job_named (map (λ word. string_bytes word) words.now) }
    ensures image { IfSome result (λ job. 2 ≤ length words.now) }
{
    match words.len() {
        2 => alone_of(words),
        3 => short_of(words),
        4 => import_of(words),
        5 => export_of(words),
        _ => None,
    }
}
