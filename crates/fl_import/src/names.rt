// A line without its carriage return.
ghost use Rattle.std.specs.Prelude.{◌≡◌};
ghost use Rattle.fl_words.specs.Grammar as grammar;

/// A line without the carriage return at its end.
pub(crate) fn without_return(line: &[u8]) -> &[u8]
    ensures { result.now ≡ grammar.without_return line.now }
{
    let Some((last, front)) = line.split_last() else {
        return line;
    };
    if *last == b'\r' { front } else { line }
}
