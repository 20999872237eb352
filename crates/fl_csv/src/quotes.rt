// Quotes that aren't closed.
ghost use Rattle.std.specs.Prelude.{◌≡◌};
ghost use Rattle.csv.specs.Reading.{strip_bom};
ghost use Rattle.fl_csv.specs.Lines as lines;

/// Where the next byte of a line stands.
#[derive(Clone, Copy)]
pub(crate) enum Place {
    /// At the start of a field, or right behind a closing quote: a quote opens.
    Edge,
    /// Further on in a field, outside quotes: a quote is a byte like any other.
    Bare,
    /// Between quotes: a quote closes.
    Quoted,
}

/// Where the byte behind one stands that is outside quotes and opens none.
fn place_outside(byte: u8) -> Place
    ensures { result ≡ lines.place_outside byte }
{
    match byte {
        b',' | b'\r' | b'\n' => Place::Edge,
        _ => Place::Bare,
    }
}

fn place_after(place: Place, byte: u8) -> Place
    ensures { result ≡ lines.place_after place byte }
{
    if byte != b'"' {
        return match place {
            Place::Edge | Place::Bare => place_outside(byte),
            Place::Quoted => Place::Quoted,
        };
    }
    match place {
        Place::Edge => Place::Quoted,
        Place::Bare => Place::Bare,
        Place::Quoted => Place::Edge,
    }
}

/// The line without a byte order mark at its start.
fn without_mark(line: &[u8]) -> &[u8]
    ensures { result.now ≡ strip_bom line.now }
{
    line.strip_prefix(b"\xef\xbb\xbf").unwrap_or(line)
}

fn is_between(place: Place) -> bool
    ensures { result ≡ lines.is_between place }
{
    matches!(place, Place::Quoted)
}

/// Whether a line ends between quotes.
pub(crate) fn is_open(line: &[u8]) -> bool
    ensures { result ≡ lines.is_open line.now }
{
    let text = without_mark(line);
    let mut place = Place::Edge;
    for byte in text {
        place = place_after(place, *byte);
    }
    is_between(place)
}
