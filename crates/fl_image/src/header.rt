// The configuration that the header of an image tells.
ghost use Rattle.std.specs.Prelude.{◌≡◌, length, IsTrue, IfSome, IfNone, Some, None};
ghost use Rattle.std.specs.Bool.{OnTrue, OnFalse};
ghost use Rattle.fl_words.specs.Config.{Lines, no_lines};
ghost use Rattle.fl_words.specs.Grammar.{command_of};
ghost use Rattle.fl_words.specs.Parts.{line_parts};
ghost use Rattle.fl_config.specs.Whole.{is_whole};
ghost use Rattle.fl_image.specs.Header.{after_command, after_lines, IsAccepted, IsHeaderOf};

use fl_config::Config;
use fl_script::{LineRoom, read_line};

/// The bytes in front of the pages of an image.
pub const HEADER: usize = 1024;

/// Whether a line is taken. One that isn't leaves the configuration.
fn take_line(config: &mut Config, line: &[u8], room: &mut LineRoom) -> bool
    ensures taken { OnTrue result (after_command config.old (command_of line.now) ≡ Some config.new) }
    ensures refused { OnFalse result (after_command config.old (command_of line.now) ≡ None) }
{
    match read_line(line, room) {
        Ok(command) => config.add(&command, room).is_ok(),
        Err(_) => false,
    }
}

/// The configuration that the lines of a text make, if each of them is a command and none is refused.
pub fn config_of_lines(text: &[u8], room: &mut LineRoom) -> Option<Config>
    ensures { result ≡ after_lines no_lines (line_parts text.now) }
{
    let mut config = Config::new();
    for line in text.split(|byte| *byte == b'\n') {
        if !take_line(&mut config, line, room) {
            return None;
        }
    }
    Some(config)
}

/// Whether the bytes are the header of a configuration.
fn is_header_of(header: &[u8], config: &Config) -> bool
    requires size { length header.now ≡ HEADER }
    requires whole { IsTrue (is_whole config.now) }
    ensures yes { OnTrue result (IsHeaderOf header.now config.now) }
    ensures no { OnFalse result (IsHeaderOf header.now config.now → ⊥) }
{
    let mut own = [0; HEADER];
    config.header(&mut own);
    header == &own[..]
}

/// The configuration of the images that have this header: the text of its lines, filled up with spaces. None exactly where
/// these are the header of no configuration.
pub fn config_of_header(header: &[u8], room: &mut LineRoom) -> Option<Config>
    requires { length header.now ≡ HEADER }
    ensures some { IfSome result (λ config. IsAccepted config × IsHeaderOf header.now config) }
    ensures none { IfNone result ((config : Lines) → IsAccepted config → IsHeaderOf header.now config → ⊥) }
{
    let config = config_of_lines(header, room)?;
    if !config.is_complete() {
        return None;
    }
    if !is_header_of(header, &config) {
        return None;
    }
    Some(config)
}
