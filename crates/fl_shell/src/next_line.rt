// The next line of an input, however long the one before it is.
ghost use Rattle.fl_shell.specs.Reading.{AsksNext};

use fl_base::Source;
use fl_lines::{Lines, LinesFault};

/// The bytes of the longest line that is read.
const LONGEST: usize = 4096;

/// Goes on to the next line; false says that there is none. Of a line that is too long its first 4,097 bytes are given, and the
/// rest of it is passed over with it.
pub(crate) fn next_line<S: Source>(lines: &mut Lines, input: &mut S) -> Result<bool, LinesFault>
    ensures { AsksNext lines.old (S.left input.old) (S.faults input.old) result lines.new (S.left input.new) (S.faults input.new) }
{
    let mut is_rest = lines.line().len() > LONGEST;
    'pieces: loop {
        if !lines.advance(input)? {
            return Ok(false);
        }
        if !is_rest {
            return Ok(true);
        }
        is_rest = lines.line().len() > LONGEST;
    }
}
