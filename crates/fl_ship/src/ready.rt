// Two media between which a ship may begin.
ghost use Rattle.std.specs.Prelude.{◌≡◌, ◌<◌, Some, [], length, slice_get, IsTrue, IfErr, IfOk, Err};
ghost use Rattle.fl_base.specs.Causes.{Rose};
ghost use Rattle.fl_config.specs.Whole.{is_whole};
ghost use Rattle.fl_image.specs.Image.{OnlyLooksAt};
ghost use Rattle.fl_model.specs.Record.{Plan};
ghost use Rattle.fl_ship.specs.Ends.{is_shipped};
ghost use Rattle.fl_ship.specs.Fits.{StatusFits};
ghost use Rattle.fl_ship.specs.Media.{source_status};
ghost use Rattle.fl_ship.specs.Ready.{EndsEarly, IsEarly, IsPrepared, IsReady, IsUnprepared};
ghost use Rattle.fl_store.specs.Store.{IsLayoutOf};
ghost use Rattle.fl_ship.specs.declared.side.Side.{Side};
ghost use Rattle.fl_ship.specs.declared.status.ShipStatus.{ShipStatus};

use crate::copy::look_at_copy;
use crate::rooms::Rooms;
use crate::{ShipStatus, Side};
use fl_base::Name;
use fl_config::Config;
use fl_flash::Media;
use fl_image::ToolStatus;
use fl_store::{FoundImage, Layout};
use std::alloc::Global;

/// What a ship begins with, where neither medium is refused. All memory is taken before anything of the copy is made.
#[derive(Drop)]
pub(crate) struct Ready {
    /// The configuration of both.
    pub(crate) config: Config,
    /// What the store of the source takes.
    pub(crate) source: Layout,
    /// .. and that of the copy.
    pub(crate) copy: Layout,
    /// Room for pages of either.
    pub(crate) rooms: Rooms,
    /// The place of the table, from 0.
    pub(crate) at: usize,
}

/// The status of a ship whose source isn't opened.
fn source_status(status: ToolStatus) -> ShipStatus
    ensures { result ≡ source_status status }
{
    match status {
        ToolStatus::Device => ShipStatus::Device { side: Side::Source },
        ToolStatus::NoMemory => ShipStatus::NoMemory,
        _ => ShipStatus::NotImage { side: Side::Source },
    }
}

/// Whether the table at this place is one that is shipped: it has neither variable data nor a log.
fn is_shipped(config: &Config, at: usize) -> bool
    requires { at < length config.now.plans }
    ensures { (plan : Plan) → slice_get config.now.plans at ≡ Some plan → result ≡ is_shipped plan }
{
    config.table(at).var.is_none() && config.log(at).is_none()
}

/// What a ship of the table with this name needs besides the media, of this image.
fn prepared(alloc: Global, name: Name, found: FoundImage) -> Result<Ready, ShipStatus>
    requires whole { IsTrue (is_whole found.config) }
    requires layout { IsLayoutOf found.layout found.config }
    ensures ready { IfOk result (λ ready. IsPrepared ready found name) }
    ensures refused { IfErr result (IsUnprepared found name) }
{
    let FoundImage {
        config,
        layout: source,
    } = found;
    let Ok(copy) = Layout::new(alloc, &config) else {
        return Err(ShipStatus::NoMemory);
    };
    let Ok(rooms) = Rooms::new(alloc, config.geometry().page) else {
        return Err(ShipStatus::NoMemory);
    };
    let Some(at) = source.find(name) else {
        return Err(ShipStatus::NoTable);
    };
    if !is_shipped(&config, at) {
        return Err(ShipStatus::OtherForm);
    }
    Ok(Ready {
        config,
        source,
        copy,
        rooms,
        at,
    })
}

/// What a ship of the table with this name needs, where the source is an image that has it, and the copy is empty or an image of the
/// same configuration. Nothing of the media changes.
pub(crate) fn make_ready<M: Media, C: Media>(
    alloc: Global,
    name: Name,
    media: &mut M,
    copy: &mut C,
) -> Result<Ready, ShipStatus>
    ensures ready { IfOk result (λ ready. IsReady ready name (M.state media.old) (C.state copy.old)) }
    ensures early { IfErr result IsEarly }
    ensures ends { IfErr result (EndsEarly name (M.state media.old) (M.state media.new) (C.state copy.old) (C.state copy.new)) }
    ensures fits { IfErr result (λ status. IsTrue (M.state media.old).tells → IsTrue (C.state copy.old).tells → StatusFits (M.state media.old).content (C.state copy.old).content name status) }
    ensures device { result ≡ Err (ShipStatus.Device Side.Source) → Rose (M.state media.old).faults (M.state media.new).faults }
    ensures copy_device { result ≡ Err (ShipStatus.Device Side.Copy) → Rose (C.state copy.old).faults (C.state copy.new).faults }
    ensures looks { OnlyLooksAt (M.state media.old) (M.state media.new) }
    ensures copy_looks { OnlyLooksAt (C.state copy.old) (C.state copy.new) }
    ensures copy_unread { (C.state copy.old).content ≡ [] → (C.state copy.new).reads ≡ (C.state copy.old).reads }
{
    let found = match FoundImage::on(alloc, media) {
        Ok(found) => found,
        Err(status) => return Err(source_status(status)),
    };
    look_at_copy(&found.config, copy)?;
    prepared(alloc, name, found)
}
