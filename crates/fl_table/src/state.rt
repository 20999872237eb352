// Whether a table is mounted.
ghost use Rattle.std.specs.Prelude.{◌≡◌, false};

use crate::table::Table;

impl<const KNOTS: usize, const SLOTS: usize> Table<KNOTS, SLOTS> {
    ghost use Rattle.std.specs.Prelude.{◌||◌};
    ghost use Rattle.fl_flash.specs.Flash.{FlashState};
    ghost use Rattle.fl_table.specs.Look.{last_key_in};
    ghost use Rattle.fl_table.specs.Memory.{is_running, is_stopped, is_mounted, pending_in, IsForgotten, IsSamePlan, LiesOn};

    /// The last mount succeeded.
    pub fn is_mounted(&self) -> bool
        ensures { result ≡ is_mounted self.now }
    {
        self.is_running() || self.stopped
    }

    /// A program or erase failed since the mount.
    pub fn is_stopped(&self) -> bool
        ensures { result ≡ is_stopped self.now }
    {
        self.stopped
    }

    /// It is mounted, and no program or erase failed since.
    pub(crate) fn is_running(&self) -> bool
        ensures { result ≡ is_running self.now }
    {
        self.ring.is_some()
    }

    /// Stops it as a failed operation does: it is to be mounted again. A table that isn't mounted, or is stopped, stays as it is.
    pub fn stop(&mut self)
        ensures stopped { is_stopped self.new ≡ (is_running self.old || is_stopped self.old) }
        ensures running { is_running self.new ≡ false }
        ensures still { is_running self.old ≡ false → self.new ≡ self.old }
        ensures pending { pending_in self.new ≡ pending_in self.old }
        ensures last { last_key_in self.new ≡ last_key_in self.old }
        ensures same { IsSamePlan self.old self.new }
        ensures lies { (f : FlashState) → LiesOn self.old f → LiesOn self.new f }
    {
        if self.is_running() {
            self.ring = None;
            self.stopped = true;
        }
    }

    /// Gives up what is in memory, as before its first mount: it is to be mounted again.
    pub fn unmount(&mut self)
        ensures forgotten { IsForgotten self.new }
        ensures same { IsSamePlan self.old self.new }
        ensures lies { (f : FlashState) → LiesOn self.old f → LiesOn self.new f }
    {
        self.forget();
    }
}
