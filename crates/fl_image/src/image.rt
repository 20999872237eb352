// The configuration of the image on a medium.
ghost use Rattle.std.specs.Prelude.{◌≡◌, ◌≤◌, ◌+◌, ◌⊎◌, length, IsTrue, IfOk, IfErr, Err};
ghost use Rattle.fl_base.specs.Causes.{Rose};
ghost use Rattle.fl_model.specs.Record.{Config as Configured};
ghost use Rattle.fl_model.specs.Image.{medium_len};
ghost use Rattle.fl_words.specs.Config.{Lines};
ghost use Rattle.fl_config.specs.Whole.{is_whole, Makes};
ghost use Rattle.fl_image.specs.Header.{IsAccepted};
ghost use Rattle.fl_image.specs.Image.{IsImageOf, OnlyLooksAt};
ghost use Rattle.fl_image.specs.declared.status.ToolStatus.{ToolStatus};

use crate::ToolStatus;
use crate::header::{HEADER, config_of_header};
use fl_config::Config;
use fl_flash::Media;
use fl_script::LineRoom;

/// The configuration of which the medium is an image: its first bytes are that one's header, and its length is that one's.
pub fn config_of_image<M: Media>(media: &mut M, room: &mut LineRoom) -> Result<Config, ToolStatus>
    ensures image { IfOk result (λ config. IsTrue (M.state media.old).tells → IsAccepted config × IsImageOf (M.state media.old).content config) }
    ensures none { result ≡ Err ToolStatus.NotImage → IsTrue (M.state media.old).tells → (config : Lines) → IsAccepted config → IsImageOf (M.state media.old).content config → ⊥ }
    ensures device { result ≡ Err ToolStatus.Device → Rose (M.state media.old).faults (M.state media.new).faults }
    ensures statuses { IfErr result (λ status. (status ≡ ToolStatus.NotImage) ⊎ (status ≡ ToolStatus.Device)) }
    ensures whole { IfOk result (λ config. IsTrue (is_whole config)) }
    ensures size { IfOk result (λ config. (configured : Configured) → Makes config configured → length (M.state media.old).content ≡ medium_len configured) }
    ensures looks { OnlyLooksAt (M.state media.old) (M.state media.new) }
    ensures reads { (M.state media.new).reads ≤ (M.state media.old).reads + 1 }
{
    let len = media.len();
    if len < HEADER as u64 {
        return Err(ToolStatus::NotImage);
    }
    let mut header = [0; HEADER];
    let Ok(()) = media.read_at(0, &mut header) else {
        return Err(ToolStatus::Device);
    };
    let Some(config) = config_of_header(&header, room) else {
        return Err(ToolStatus::NotImage);
    };
    if config.image_len() != len {
        return Err(ToolStatus::NotImage);
    }
    Ok(config)
}
