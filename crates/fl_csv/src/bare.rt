// Lines without quotes, which are cut at their commas.
ghost use Rattle.std.specs.Prelude.{◌≡◌};
ghost use Rattle.std.specs.List.{list_all};
ghost use Rattle.fl_words.specs.Parts.{comma_parts};
ghost use Rattle.fl_csv.specs.Lines as lines;
ghost use Rattle.fl_csv.specs.Views.{AreFields};

use arrayvec::ArrayVec;

/// How many fields a record has at most: the key, eight values and the blob.
pub(crate) const MOST_FIELDS: usize = 10;

/// Whether a byte is neither a quote nor ends a record.
fn stands_alone(byte: u8) -> bool
    ensures { result ≡ lines.stands_alone byte }
{
    byte != b'"' && byte != b'\r' && byte != b'\n'
}

fn are_alone(bytes: &[u8]) -> bool
    ensures { result ≡ list_all lines.stands_alone bytes.now }
{
    for byte in bytes {
        if !stands_alone(*byte) {
            return false;
        }
    }
    true
}

/// Whether the fields of a line are what stands between its commas.
pub(crate) fn is_bare(line: &[u8]) -> bool
    ensures { result ≡ lines.is_bare line.now }
{
    if line.is_empty() || line[0] == 0xEF {
        return false;
    }
    are_alone(line)
}

/// What stands between the commas of a line, where these aren't more fields than any record has.
pub(crate) fn bare_fields(line: &[u8]) -> Option<ArrayVec<&[u8], MOST_FIELDS>>
    ensures { AreFields result (comma_parts line.now) }
{
    let mut fields = ArrayVec::new();
    for field in line.split(|byte| *byte == b',') {
        if fields.is_full() {
            return None;
        }
        fields.push(field);
    }
    Some(fields)
}
