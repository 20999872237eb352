// The words of the command line that name a ship.
ghost use Rattle.std.specs.Prelude.{◌≡◌, ◌≤◌, IfSome, codes, length, map, string_bytes, false, None, Some, Err, Ok, MatchOption, ◌&&◌, if◌then◌else◌};
ghost use Rattle.fl_ends.specs.Words.{is_image_name};
ghost use Rattle.fl_model.specs.Record.{bytes_equal};
ghost use Rattle.fl_words.specs.Grammar as grammar;
ghost use Rattle.fl_command.specs.ShipWords.{records_named, ship_named};

use crate::words::{is_word, name, number};
use fl_base::Name;
use fl_ends::names_image;

/// A ship of records of a table from the image that the second word names to the copy that the third one names.
#[derive(Clone, Copy)]
pub struct ShipJob {
    /// The table.
    pub name: Name,
    /// How many records at most, from 1 to 1,000,000.
    pub count: u64,
}

/// The count that the word is.
fn count(word: &str) -> Option<u64>
    ensures { MatchOption result (grammar.number_in 1 1000000 word.now ≡ Err grammar.Number) (λ value. grammar.number_in 1 1000000 word.now ≡ Ok value) }
{
    let count = number(word)?;
    if count == 0 || count > 1_000_000 {
        return None;
    }
    Some(count)
}

/// A ship of so many records of the table with this name.
fn ship(name_word: &str, count_word: &str) -> Option<ShipJob>
    ensures { result ≡ (if grammar.is_name name_word.now then records_named name_word.now (grammar.number_in 1 1000000 count_word.now) else None) }
{
    let name = name(name_word)?;
    let count = count(count_word)?;
    Some(ShipJob { name, count })
}

/// Whether the words name an image and a copy of it.
fn names_images(image: &str, copy: &str) -> bool
    ensures { result ≡ (is_image_name image.now && is_image_name copy.now) }
{
    names_image(image) && names_image(copy)
}

/// The ship that five words name.
fn ship_of_five(words: &[String]) -> Option<ShipJob>
    requires { length words.now ≡ 5 }
    ensures { result ≡ ship_named (map (λ word. string_bytes word) words.now) }
{
    if !is_word(words[0].as_str(), "ship") {
        return None;
    }
    if !names_images(words[1].as_str(), words[2].as_str()) {
        return None;
    }
    ship(words[3].as_str(), words[4].as_str())
}

/// The ship that the words name: `ship`, an image and a copy, a table, and how many records at most, from 1 to 1,000,000. Images
/// are words that aren't empty and don't begin with a dash; names of tables and numbers are those of a script.
pub fn ship_of(words: &[String]) -> Option<ShipJob>
    ensures exact { result ≡ ship_named (map (λ word. string_bytes word) words.now) }
    ensures images { IfSome result (λ job. length words.now ≡ 5) }
    ensures count { IfSome result (λ job. (1 ≤ job.count) × (job.count ≤ 1000000)) }
{
    match words.len() {
        5 => ship_of_five(words),
        _ => None,
    }
}
