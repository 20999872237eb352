// The words of a line.
ghost use Rattle.std.specs.Prelude.{◌≡◌, ◌<◌, ◌≤◌, ◌∷◌, [], map, take, length, MatchOption, IfSome, not, ◌==◌};
ghost use Rattle.std.specs.List.{All, prefix_len};
ghost use Rattle.fl_words.specs.Grammar as grammar;

use memchr::memchr;

/// One more than any line has: a put has its first word, a name, a key, 16 values, `blob` and a blob word.
pub(crate) const MOST_WORDS: usize = 22;

/// A line without the carriage return at its end.
pub fn without_return(line: &[u8]) -> &[u8]
    ensures trimmed { result.now ≡ grammar.without_return line.now }
    ensures short { length result.now ≤ length line.now }
{
    let Some((last, front)) = line.split_last() else {
        return line;
    };
    if *last == b'\r' { front } else { line }
}

/// How many spaces the line begins with.
#[tactic(auto, using(crate::proofs::WordsOfLine::prefix_fits))]
fn spaces(line: &[u8]) -> usize
    ensures { (result ≡ prefix_len (λ byte. byte == 32) line.now) × (result ≤ length line.now) }
{
    line.iter().take_while(|byte| **byte == b' ').count()
}

/// How many bytes of the line stand before a space.
fn word_len(line: &[u8]) -> usize
    ensures { (result ≡ prefix_len (λ byte. not (byte == 32)) line.now) × (result ≤ length line.now) }
{
    memchr(b' ', line).unwrap_or(line.len())
}

/// The first word of a line, and the rest of it; none where it has no word.
pub fn first_word(line: &[u8]) -> Option<(&[u8], &[u8])>
    ensures words { MatchOption result (grammar.words_in line.now ≡ []) (λ split. grammar.words_in line.now ≡ split.0.now ∷ grammar.words_in split.1.now) }
    ensures shorter { IfSome result (λ split. (length split.0.now ≤ length line.now) × (length split.1.now < length line.now)) }
{
    let (_, line) = line.split_at(spaces(line));
    if line.is_empty() {
        return None;
    }
    let (word, rest) = line.split_at(word_len(line));
    Some((word, rest))
}

/// Puts the words of a line to the front of the room, or the first ones where it has more, and tells how many.
pub(crate) fn words_in<'a>(line: &'a [u8], room: &mut [&'a [u8]; MOST_WORDS]) -> usize
    ensures words { map (λ word. word.now) (take result room.new) ≡ take 22 (grammar.words_in line.now) }
    ensures short { All (λ word. length word.now ≤ length line.now) (take result room.new) }
    ensures count { (result ≤ 22) × (result ≤ length room.new) }
{
    let mut count = 0;
    let mut rest = line;
    while let Some((word, after)) = first_word(rest) {
        if count == MOST_WORDS {
            break;
        }
        room[count] = word;
        count += 1;
        rest = after;
    }
    count
}
