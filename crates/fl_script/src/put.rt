// The line of a put.
ghost use Rattle.std.specs.Prelude.{◌≡◌, ◌≤◌, map, [], length, false, MatchResult, IsOk, IfSome, Some, None, if◌then◌else◌};
ghost use Rattle.std.specs.List.{All};
ghost use Rattle.fl_words.specs.Grammar as grammar;
ghost use Rattle.fl_script.specs.Lines.{line_view, leaves, word_of, blob_bytes};

use crate::word::{is, name, number, signed};
use crate::{Command, LineFault, LineRoom};
use arrayvec::ArrayVec;

/// The signed numbers that the words are.
fn each_signed(words: &[&[u8]]) -> Result<ArrayVec<i64, 16>, LineFault>
    requires { length words.now ≤ 16 }
    ensures { MatchResult result (λ values. grammar.each_signed (map (λ word. word.now) words.now) ≡ Ok values.items) (λ e. (grammar.each_signed (map (λ word. word.now) words.now) ≡ Err grammar.Number) × (e ≡ LineFault.Number)) }
{
    let mut values = ArrayVec::new();
    for word in words {
        values.push(signed(word)?);
    }
    Ok(values)
}

/// The values of a put, and its blob word, if there is one.
fn blob_split<'a>(words: &'a [&'a [u8]]) -> (&'a [&'a [u8]], Option<&'a [u8]>)
    ensures split { grammar.blob_split (map (λ word. word.now) words.now) ≡ (map (λ word. word.now) result.0.now, word_of result.1) }
    ensures short { All (λ word. length word.now ≤ 4096) words.now → IfSome result.1 (λ blob. length blob.now ≤ 4096) }
{
    let Some((blob, rest)) = words.split_last() else {
        return (words, None);
    };
    let Some((mark, values)) = rest.split_last() else {
        return (words, None);
    };
    if is(mark, b"blob") {
        (values, Some(*blob))
    } else {
        (words, None)
    }
}

/// Leaves the bytes of a blob word in the room; tells whether there is one.
fn decode_blob(blob: Option<&[u8]>, room: &mut LineRoom) -> Result<bool, LineFault>
    requires short { IfSome blob (λ word. length word.now ≤ 4096) }
    requires empty { room.old ≡ [] }
    ensures { MatchResult result
        (λ has. (blob_bytes (word_of blob.entry) ≡ Some (if has then Some room.new else None)) × (has ≡ false → room.new ≡ []))
        (λ e. (blob_bytes (word_of blob.entry) ≡ None) × (e ≡ LineFault.Form)) }
{
    let Some(word) = blob else {
        return Ok(false);
    };
    room.decode(word)?;
    Ok(true)
}

/// `put` NAME KEY, up to 16 values, and then optionally `blob` and a blob word
pub(crate) fn put_line(words: &[&[u8]], room: &mut LineRoom) -> Result<Command, LineFault>
    requires short { All (λ word. length word.now ≤ 4096) words.now }
    requires empty { room.old ≡ [] }
    ensures command { line_view result room.new ≡ grammar.put_line (map (λ word. word.now) words.now) }
    ensures room { IsOk result → leaves result ≡ false → room.new ≡ [] }
{
    let [table, key, rest @ ..] = words else {
        return Err(LineFault::Form);
    };
    let name = name(table)?;
    let (values, blob) = blob_split(rest);
    if values.len() > 16 {
        return Err(LineFault::Form);
    }
    let blob = decode_blob(blob, room)?;
    Ok(Command::Put {
        name,
        key: number(key)?,
        values: each_signed(values)?,
        blob,
    })
}
