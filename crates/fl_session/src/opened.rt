// A session that its caller holds, over an image that was opened.
ghost use Rattle.std.specs.Prelude.{◌≡◌, ◌+◌, ◌≤◌, Some, true, length, IfOk, IsTrue, sum_by};
ghost use Rattle.fl_base.specs.declared.types.Geometry.{Geometry};
ghost use Rattle.fl_flash.specs.Places.{extent};
ghost use Rattle.fl_model.specs.Record.{Config as Configuration, blocks_of};
ghost use Rattle.fl_words.specs.Config.{whole};
ghost use Rattle.fl_config.specs.Whole.{is_whole};
ghost use Rattle.fl_machine.specs.Machine.{Machine};
ghost use Rattle.fl_machine.specs.Script.{StandsAfter};
ghost use Rattle.fl_store.specs.Store.{IsBlankBehind};
ghost use Rattle.fl_session.specs.CausedEach.{IsNewSession};
ghost use Rattle.fl_session.specs.Held.{AreRoomsFor};
ghost use Rattle.fl_session.specs.Standing.{RestsTold};

use crate::executor::Executor;
use crate::session::Session;
use fl_base::NoMemory;
use fl_config::Config;
use fl_flash::Media;
use fl_queries::Buffers;
use fl_store::{KNOTS, Layout, Store};
use std::alloc::Global;

/// What a session needs, taken before its image is opened.
#[derive(Drop)]
pub struct Rooms {
    pub(crate) layout: Layout,
    pub(crate) buf: Buffers,
}

impl Rooms {
    /// Room for a session of this configuration.
    pub fn new(alloc: Global, config: &Config) -> Result<Rooms, NoMemory>
        requires { IsTrue (is_whole config.now) }
        ensures { IfOk result (λ rooms. AreRoomsFor rooms config.now) }
    {
        Ok(Rooms {
            layout: Layout::new(alloc, config)?,
            buf: Buffers::new(alloc, config.geometry().page)?,
        })
    }
}

impl<'m, M: Media> Session<'m, M> {
    /// A session over an image that was opened, or was just made, with the room for it. It isn't mounted and has read nothing.
    pub fn over(media: &'m mut M, config: &Config, is_new: bool, rooms: Rooms) -> Self
        requires whole { IsTrue (is_whole config.now) }
        requires rooms { AreRoomsFor rooms config.now }
        requires reach { (g : Geometry) → config.now.device ≡ Some g → 1024 + extent g (sum_by blocks_of config.now.plans) ≤ length (M.state media.old).content }
        requires blank { is_new ≡ true → IsTrue (M.state media.old).tells → (g : Geometry) → config.now.device ≡ Some g → IsBlankBehind g (sum_by blocks_of config.now.plans) (M.state media.old).content }
        // It stands for each state that the medium represents.
        ensures begins { (configured : Configuration) (m : Machine) → whole KNOTS config.now ≡ Some configured → RestsTold configured (M.state media.old) m → ⟦<Self as Executor>⟧.stands result configured m }
        ensures fresh { IsNewSession config.now (M.state media.old) (⟦<Self as Executor>⟧.state result) }
        ensures sound { ⟦<Self as Executor>⟧.sound result }
        ensures unread { (⟦<Self as Executor>⟧.flash result).work.reads ≡ 0 }
        ensures medium { (⟦<Self as Executor>⟧.flash result).media ≡ M.state media.old }
        ensures start { (⟦<Self as Executor>⟧.flash result).start ≡ 1024 }
        ensures origin { (⟦<Self as Executor>⟧.flash result).origin ≡ media.entry.ghost_name }
    {
        let Rooms { layout, buf } = rooms;
        let Store { flash, tables } = Store::over(media, config, is_new, layout);
        Session::new(flash, tables, buf)
    }

    /// Gives the medium back. What is pending is lost.
    pub fn into_media(self) -> &'m mut M
        ensures same_reference { result.ghost_name ≡ (⟦<Self as Executor>⟧.flash self.entry).origin }
        ensures state { M.state result.now ≡ (⟦<Self as Executor>⟧.flash self.entry).media }
        // It represents each state for which the session stood.
        ensures rests { (configured : Configuration) (m : Machine) → ⟦<Self as Executor>⟧.stands self.entry configured m → StandsAfter configured (Some (M.state result.now).content) m }
    {
        self.end()
    }
}
