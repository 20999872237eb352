// One read and one write, again where a signal interrupts it.
ghost use Rattle.std.specs.Prelude.{◌≤◌, ◌<◌, length, IfOk};
ghost use Rattle.fl_base.specs.Stream.{Reads, Writes};

use fl_base::{SinkFailed, SourceFailed};
use std::io::{ErrorKind, Read, Write};

/// Reads once, and again where that was interrupted.
pub(crate) fn read_retried<R: Read>(reader: &mut R, into: &mut [u8]) -> Result<usize, SourceFailed>
    ensures count { IfOk result (λ n. n ≤ length into.new) }
    ensures bytes { Reads (R.remaining reader.old) (R.remaining reader.new) result into.new }
{
    for _ in 0..u64::MAX {
        match reader.read(into) {
            Ok(count) => return Ok(count),
            Err(e) => {
                if e.kind() != ErrorKind::Interrupted {
                    break;
                }
            }
        }
    }
    Err(SourceFailed)
}

/// Writes once, and again where that was interrupted. A writer that takes none of some bytes fails, since it will
/// never take them.
pub(crate) fn write_retried<W: Write>(writer: &mut W, from: &[u8]) -> Result<usize, SinkFailed>
    ensures count { IfOk result (λ n. n ≤ length from.now) }
    ensures some { IfOk result (λ n. 0 < length from.now → 0 < n) }
    ensures bytes { Writes (W.contents writer.old) (W.contents writer.new) result from.now }
{
    for _ in 0..u64::MAX {
        match writer.write(from) {
            Ok(count) => {
                if count > 0 || from.is_empty() {
                    return Ok(count);
                }
                break;
            }
            Err(e) => {
                if e.kind() != ErrorKind::Interrupted {
                    break;
                }
            }
        }
    }
    Err(SinkFailed)
}
