// The configuration of what may be a damaged image: that of its header, or else one that is given.
ghost use Rattle.std.specs.Prelude.{◌≡◌, ◌≤◌, ◌<◌, ◌⊎◌, ℕ, List, Some, length, take, IsTrue, IfOk, IfErr, Err};
ghost use Rattle.fl_base.specs.Causes.{Rose};
ghost use Rattle.fl_config.specs.Whole.{is_whole};
ghost use Rattle.fl_image.specs.Image.{OnlyLooksAt};
ghost use Rattle.fl_image.specs.declared.status.ToolStatus.{ToolStatus};
ghost use Rattle.fl_salvage.specs.Given.{IsConfigured, IsUnconfigured, IsOfConfig, IsGiven, IsNoneGiven};

use fl_base::Source;
use fl_config::Config;
use fl_flash::Media;
use fl_image::{ToolStatus, config_of_image, config_of_lines};
use fl_script::LineRoom;

/// One byte more than the text of a configuration may have that is given.
const ROOM: usize = 4097;

/// Reads a source to its end, and answers how many bytes it gave. They are fewer than there is room for.
fn read_text<S: Source>(input: &mut S, into: &mut [u8; ROOM]) -> Result<usize, ToolStatus>
    ensures text { IfOk result (λ len. (len < ROOM) × ((text : List ℕ) → S.left input.old ≡ Some text → take len into.new ≡ text)) }
    ensures long { result ≡ Err ToolStatus.InputLong → (text : List ℕ) → S.left input.old ≡ Some text → 4096 < length text }
    ensures fails { result ≡ Err ToolStatus.InputRead → Rose (S.faults input.old) (S.faults input.new) }
    ensures later { S.faults input.old ≤ S.faults input.new }
    ensures statuses { IfErr result (λ status. (status ≡ ToolStatus.InputLong) ⊎ (status ≡ ToolStatus.InputRead)) }
{
    let mut len = 0;
    'bytes: while len < ROOM {
        match input.read(&mut into[len..]) {
            Ok(0) => return Ok(len),
            Ok(count) => len += count,
            Err(_) => return Err(ToolStatus::InputRead),
        }
    }
    Err(ToolStatus::InputLong)
}

/// The configuration that the lines of a source make. It is read to its end.
fn config_of_input<S: Source>(input: &mut S, lines: &mut LineRoom) -> Result<Config, ToolStatus>
    ensures given { IfOk result (λ config. (text : List ℕ) → S.left input.old ≡ Some text → IsGiven text config) }
    ensures whole { IfOk result (λ config. IsTrue (is_whole config)) }
    ensures none { result ≡ Err ToolStatus.NotImage → (text : List ℕ) → S.left input.old ≡ Some text → IsNoneGiven text }
    ensures long { result ≡ Err ToolStatus.InputLong → (text : List ℕ) → S.left input.old ≡ Some text → 4096 < length text }
    ensures fails { result ≡ Err ToolStatus.InputRead → Rose (S.faults input.old) (S.faults input.new) }
    ensures later { S.faults input.old ≤ S.faults input.new }
    ensures statuses { IfErr result (λ status. (status ≡ ToolStatus.NotImage) ⊎ (status ≡ ToolStatus.InputLong) ⊎ (status ≡ ToolStatus.InputRead)) }
{
    let mut text = [0; ROOM];
    let len = read_text(input, &mut text)?;
    let Some(config) = config_of_lines(&text[..len], lines) else {
        return Err(ToolStatus::NotImage);
    };
    if !config.is_complete() {
        return Err(ToolStatus::NotImage);
    }
    Ok(config)
}

/// The configuration of an image: that of its header, and where it is no image that which the lines of a source make. The
/// source is read there alone.
pub(crate) fn config_of<M: Media, S: Source>(
    media: &mut M,
    input: &mut S,
    lines: &mut LineRoom,
) -> Result<Config, ToolStatus>
    ensures looks { OnlyLooksAt (M.state media.old) (M.state media.new) }
    ensures later { S.faults input.old ≤ S.faults input.new }
    ensures configured { IfOk result (λ config. IsTrue (M.state media.old).tells → IsConfigured (M.state media.old).content (S.left input.old) config) }
    ensures whole { IfOk result (λ config. IsTrue (is_whole config)) }
    ensures refused { IfErr result (λ status. IsTrue (M.state media.old).tells → IsUnconfigured (M.state media.old).content (S.left input.old) status) }
    ensures device { result ≡ Err ToolStatus.Device → Rose (M.state media.old).faults (M.state media.new).faults }
    ensures fails { result ≡ Err ToolStatus.InputRead → Rose (S.faults input.old) (S.faults input.new) }
    ensures statuses { IfErr result IsOfConfig }
{
    match config_of_image(media, lines) {
        Ok(config) => Ok(config),
        Err(ToolStatus::NotImage) => config_of_input(input, lines),
        Err(status) => Err(status),
    }
}
