// The medium of a copy: looked at, and made.
ghost use Rattle.std.specs.Prelude.{◌≡◌, ◌⊎◌, ◌≤◌, [], Err, IfErr, IsTrue, OnOk, length};
ghost use Rattle.fl_base.specs.Causes.{Rose};
ghost use Rattle.fl_config.specs.Whole.{is_whole, Makes};
ghost use Rattle.fl_image.specs.Image.{IsImageOf, OnlyLooksAt};
ghost use Rattle.fl_model.specs.Image.{medium_len};
ghost use Rattle.fl_model.specs.Record.{Config as Configured};
ghost use Rattle.fl_store.specs.NewImage.{made_image};
ghost use Rattle.fl_ship.specs.Media.{OpensCopy};
ghost use Rattle.fl_ship.specs.declared.side.Side.{Side};
ghost use Rattle.fl_ship.specs.declared.status.ShipStatus.{ShipStatus};

use crate::{ShipStatus, Side};
use fl_config::{Config, ImageRefusal};
use fl_flash::Media;

/// Opens a copy as an image of the configuration: an empty one is made.
fn open_copy<C: Media>(config: &Config, copy: &mut C) -> Result<(), ShipStatus>
    requires { IsTrue (is_whole config.now) }
    ensures { (configured : Configured) → Makes config.now configured → OpensCopy configured (C.state copy.old) result (C.state copy.new) }
{
    match config.open_image(copy) {
        Ok(()) => Ok(()),
        Err(ImageRefusal::Media) => Err(ShipStatus::Device { side: Side::Copy }),
        Err(ImageRefusal::Other { .. }) => Err(ShipStatus::NotImage { side: Side::Copy }),
    }
}

/// Looks whether a copy is empty, or an image of the configuration.
pub(crate) fn look_at_copy<C: Media>(config: &Config, copy: &mut C) -> Result<(), ShipStatus>
    requires { IsTrue (is_whole config.now) }
    ensures looks { OnlyLooksAt (C.state copy.old) (C.state copy.new) }
    ensures unread { (C.state copy.old).content ≡ [] → (C.state copy.new).reads ≡ (C.state copy.old).reads }
    ensures own { OnOk result (IsTrue (C.state copy.old).tells → ((C.state copy.old).content ≡ []) ⊎ IsImageOf (C.state copy.old).content config.now) }
    ensures size { OnOk result ((configured : Configured) → Makes config.now configured → ((C.state copy.old).content ≡ [] → ⊥) → length (C.state copy.old).content ≡ medium_len configured) }
    ensures other { result ≡ Err (ShipStatus.NotImage Side.Copy) → IsTrue (C.state copy.old).tells → ((C.state copy.old).content ≡ [] → ⊥) × (IsImageOf (C.state copy.old).content config.now → ⊥) }
    ensures device { result ≡ Err (ShipStatus.Device Side.Copy) → Rose (C.state copy.old).faults (C.state copy.new).faults }
    ensures statuses { IfErr result (λ status. (status ≡ ShipStatus.NotImage Side.Copy) ⊎ (status ≡ ShipStatus.Device Side.Copy)) }
{
    if copy.len() == 0 {
        return Ok(());
    }
    open_copy(config, copy)
}

/// Makes a copy that is empty.
pub(crate) fn make_copy<C: Media>(config: &Config, copy: &mut C) -> Result<(), ShipStatus>
    requires { IsTrue (is_whole config.now) }
    ensures made { OnOk result ((configured : Configured) → Makes config.now configured → IsTrue (C.state copy.old).tells → (C.state copy.new).content ≡ made_image configured (C.state copy.old).content) }
    ensures size { OnOk result ((configured : Configured) → Makes config.now configured → (C.state copy.old).content ≡ [] → length (C.state copy.new).content ≡ medium_len configured) }
    ensures kept { ((C.state copy.old).content ≡ [] → ⊥) → OnlyLooksAt (C.state copy.old) (C.state copy.new) × OnOk result ((C.state copy.new) ≡ (C.state copy.old)) }
    ensures part { (configured : Configured) → Makes config.now configured → (C.state copy.old).content ≡ [] → length (C.state copy.new).content ≤ medium_len configured }
    ensures tells { (C.state copy.new).tells ≡ (C.state copy.old).tells }
    ensures later { (C.state copy.old).faults ≤ (C.state copy.new).faults }
    ensures failed { IfErr result (λ status. (status ≡ ShipStatus.Device Side.Copy) × ((C.state copy.old).content ≡ []) × ((C.state copy.new).reads ≡ (C.state copy.old).reads) × Rose (C.state copy.old).faults (C.state copy.new).faults) }
{
    if copy.len() > 0 {
        return Ok(());
    }
    open_copy(config, copy)
}
