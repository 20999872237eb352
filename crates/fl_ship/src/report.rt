// The line that a ship writes.
ghost use Rattle.std.specs.Prelude.{◌≡◌};
ghost use Rattle.fl_base.specs.Causes.{HasCause};
ghost use Rattle.fl_script.specs.Written.{Written};
ghost use Rattle.fl_ship.specs.Text.{shipped_text};

use fl_base::{Sink, SinkFailed};
use fl_script::{TextLine, write_all};

/// Tells how many records were shipped.
pub(crate) fn tell_shipped<K: Sink>(count: u64, out: &mut K) -> Result<(), SinkFailed>
    ensures text { Written (K.written out.old) (K.written out.new) result (shipped_text count) }
    ensures cause { HasCause (K.faults out.old) (K.faults out.new) result }
{
    let mut line = TextLine::new();
    line.end_with_number(b"shipped ", count);
    write_all(line.bytes(), out)
}
