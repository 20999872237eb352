// The lines that a shell answers itself.
ghost use Rattle.std.specs.Prelude.{◌≡◌, ◌≤◌, length, option_map};
ghost use Rattle.fl_words.specs.Grammar.{words_in};
ghost use Rattle.fl_shell.specs.Own.{alone, echo_of, named, only, own_of};
ghost use Rattle.fl_shell.specs.Own as shell;
ghost use Rattle.fl_shell.specs.OwnView.{own_view};

use fl_base::Name;
use fl_script::{first_word, is, without_return};

/// A line that a shell answers itself.
#[derive(Clone, Copy)]
pub(crate) enum Own<'l> {
    /// Answers the word.
    Echo { word: &'l [u8] },
    /// Answers the first key of the table.
    First { name: Name },
    /// Answers the last key of the table.
    Last { name: Name },
    /// Tells the configuration and what the tables hold.
    Describe,
    /// It begins with one of these words and hasn't this form.
    Misformed { form: &'static str },
}

/// The word of a text that has no other one.
fn only_word(text: &[u8]) -> Option<&[u8]>
    ensures { option_map (λ word. word.now) result ≡ only (words_in text.now) }
{
    let (word, rest) = first_word(text)?;
    match first_word(rest) {
        Some(_) => None,
        None => Some(word),
    }
}

fn echo(words: &[u8]) -> Own<'_>
    ensures { own_view result ≡ echo_of (words_in words.now) }
{
    match only_word(words) {
        Some(word) => Own::Echo { word },
        None => Own::Misformed {
            form: "the form is echo WORD",
        },
    }
}

/// The name of a table that is the only word.
fn only_name(words: &[u8]) -> Option<Name>
    ensures { option_map (λ name. name) result ≡ shell.only_name (words_in words.now) }
{
    let word = only_word(words)?;
    Name::of(word)
}

fn first(words: &[u8]) -> Own<'_>
    ensures { own_view result ≡ named shell.First (words_in words.now) }
{
    match only_name(words) {
        Some(name) => Own::First { name },
        None => Own::Misformed {
            form: "the form is first NAME",
        },
    }
}

fn last(words: &[u8]) -> Own<'_>
    ensures { own_view result ≡ named shell.Last (words_in words.now) }
{
    match only_name(words) {
        Some(name) => Own::Last { name },
        None => Own::Misformed {
            form: "the form is last NAME",
        },
    }
}

fn describe(words: &[u8]) -> Own<'_>
    ensures { own_view result ≡ alone (words_in words.now) }
{
    match first_word(words) {
        Some(_) => Own::Misformed {
            form: "the form is describe",
        },
        None => Own::Describe,
    }
}

/// What a line asks that is one of the shell's own, by its first word and the others.
fn own_words<'l>(word: &[u8], words: &'l [u8]) -> Option<Own<'l>>
    ensures { option_map own_view result ≡ shell.own_named word.now (words_in words.now) }
{
    if is(word, b"echo") {
        Some(echo(words))
    } else if is(word, b"first") {
        Some(first(words))
    } else if is(word, b"last") {
        Some(last(words))
    } else if is(word, b"describe") {
        Some(describe(words))
    } else {
        None
    }
}

/// What a line asks that is one of the shell's own; none for another line, and for one with more than 4,096 bytes.
pub(crate) fn own_of(line: &[u8]) -> Option<Own<'_>>
    ensures { option_map own_view result ≡ own_of line.now }
{
    if line.len() > 4096 {
        return None;
    }
    let (word, words) = first_word(without_return(line))?;
    own_words(word, words)
}
