// A configuration from its text, and its image.
ghost use Rattle.std.specs.Prelude.{◌≡◌, ◌⊎◌, ◌+◌, ◌≤◌, true, Some, Err, length, sum_by, IfOk, IfErr, OnOk, IsTrue};
ghost use Rattle.fl_base.specs.declared.types.Geometry.{Geometry};
ghost use Rattle.fl_config.specs.Whole.{is_whole, Makes};
ghost use Rattle.fl_flash.specs.Places.{extent};
ghost use Rattle.fl_image.specs.Header.{IsAccepted, after_lines};
ghost use Rattle.fl_machine.specs.Machine.{fresh_tables};
ghost use Rattle.fl_model.specs.Image.{medium_len};
ghost use Rattle.fl_model.specs.Record.{Config as Configured, blocks_of};
ghost use Rattle.fl_words.specs.Config.{Lines, no_lines};
ghost use Rattle.fl_words.specs.Medium.{IsImage, header};
ghost use Rattle.fl_words.specs.Parts.{line_parts};
ghost use Rattle.fl_store.specs.Made.{MakesImage};
ghost use Rattle.fl_store.specs.Store.{IsBlankBehind};
ghost use Rattle.fl_store.specs.declared.fault.StoreFault.{StoreFault};

use crate::fault::StoreFault;
use fl_config::{Config, ImageRefusal};
use fl_flash::Media;
use fl_image::config_of_lines;
use fl_script::LineRoom;
use std::alloc::Global;

/// The configuration that a text makes: its lines, as a script has them, with a device and a table at least.
/// # Errors
/// `Config`: a line is no command, or is refused, or they are no whole configuration. `NoMemory`: memory isn't there.
pub fn config_of(alloc: Global, text: &[u8]) -> Result<Config, StoreFault>
    ensures made { IfOk result (λ config. after_lines no_lines (line_parts text.now) ≡ Some config) }
    ensures whole { IfOk result (λ config. IsTrue (is_whole config)) }
    ensures none { result ≡ Err StoreFault.Config → (config : Lines) → after_lines no_lines (line_parts text.now) ≡ Some config → IsTrue (is_whole config) → ⊥ }
    ensures causes { IfErr result (λ fault. (fault ≡ StoreFault.Config) ⊎ (fault ≡ StoreFault.NoMemory)) }
{
    let mut room = LineRoom::new(alloc)?;
    let Some(config) = config_of_lines(text, &mut room) else {
        return Err(StoreFault::Config);
    };
    if !config.is_complete() {
        return Err(StoreFault::Config);
    }
    Ok(config)
}

/// Opens the image of a configuration on a medium, and makes it where the medium is empty. Tells whether it was made.
/// # Errors
/// `Media`: the medium failed; one that was empty may be made in part. `Other`: it is an image of something else, and is unchanged.
pub fn make_image<M: Media>(config: &Config, media: &mut M) -> Result<bool, ImageRefusal>
    requires { IsTrue (is_whole config.now) }
    ensures makes { (configured : Configured) → Makes config.now configured → MakesImage (medium_len configured) (header configured) (M.state media.old) result (M.state media.new) }
    // A new image of lines that a text has stands for empty tables.
    ensures empty { IfOk result (λ is_new. is_new ≡ true → IsTrue (M.state media.new).tells → IsAccepted config.now → (configured : Configured) → Makes config.now configured → IsImage configured (M.state media.new).content (fresh_tables configured)) }
    ensures reach { OnOk result ((g : Geometry) → config.now.device ≡ Some g → 1024 + extent g (sum_by blocks_of config.now.plans) ≤ length (M.state media.new).content) }
    ensures blank { IfOk result (λ is_new. is_new ≡ true → IsTrue (M.state media.new).tells → (g : Geometry) → config.now.device ≡ Some g → IsBlankBehind g (sum_by blocks_of config.now.plans) (M.state media.new).content) }
{
    let is_new = media.len() == 0;
    config.open_image(media)?;
    Ok(is_new)
}
