// The power of the flash of a session.
ghost use Rattle.std.specs.Prelude.{◌≡◌, ◌≤◌};
ghost use Rattle.fl_flash.specs.Flash.{Stays};
ghost use Rattle.fl_model.specs.Record.{Config};
ghost use Rattle.fl_words.specs.Command as words;
ghost use Rattle.fl_machine.specs.Machine.{Machine};
ghost use Rattle.fl_script.specs.ReplyView.{reply_text};
ghost use Rattle.fl_session.specs.Answer.{Answers};
ghost use Rattle.fl_queries.specs.LookSays.{Says};
ghost use Rattle.fl_session.specs.Caused.{CutSays, OffSays};

use super::Session;
use crate::executor::Executor;
use fl_base::CutKind;
use fl_flash::{Flash, Media, SimFlash};
use fl_script::Reply;

impl<'m, M: Media> Session<'m, M> {
    /// Ends the session: the power goes off, and what is in memory alone is lost.
    pub(super) fn off(&mut self) -> Reply
        requires { ⟦<Self as Executor>⟧.sound self.old }
        ensures cause { Says (reply_text result) (OffSays (⟦<Self as Executor>⟧.state self.old) (⟦<Self as Executor>⟧.state self.new)) }
        ensures sound { ⟦<Self as Executor>⟧.sound self.new }
        ensures goes { Stays (⟦<Self as Executor>⟧.flash self.old) (⟦<Self as Executor>⟧.flash self.new) }
        ensures reads { (⟦<Self as Executor>⟧.flash self.new).work.reads ≡ (⟦<Self as Executor>⟧.flash self.old).work.reads }
        ensures step { (config : Config) (old : Machine) → ⟦<Self as Executor>⟧.stands self.old config old →
            Answers config old words.Off (⟦<Self as Executor>⟧.stands self.new config)
            (⟦<Self as Executor>⟧.flash self.old) (⟦<Self as Executor>⟧.flash self.new) (reply_text result) }
    {
        self.flash.power_off();
        self.mounted = false;
        self.buf.forget();
        Reply::Done
    }

    /// The n-th program or erase from now on is torn.
    pub(super) fn cut(&mut self, n: u64, kind: CutKind) -> Reply
        requires sound { ⟦<Self as Executor>⟧.sound self.old }
        requires counted { 1 ≤ n }
        ensures cause { Says (reply_text result) (CutSays (⟦<Self as Executor>⟧.state self.old) (⟦<Self as Executor>⟧.state self.new) n kind) }
        ensures sound { ⟦<Self as Executor>⟧.sound self.new }
        ensures goes { Stays (⟦<Self as Executor>⟧.flash self.old) (⟦<Self as Executor>⟧.flash self.new) }
        ensures reads { (⟦<Self as Executor>⟧.flash self.new).work.reads ≡ (⟦<Self as Executor>⟧.flash self.old).work.reads }
        ensures step { (config : Config) (old : Machine) → ⟦<Self as Executor>⟧.stands self.old config old →
            Answers config old (words.Cut n kind) (⟦<Self as Executor>⟧.stands self.new config)
            (⟦<Self as Executor>⟧.flash self.old) (⟦<Self as Executor>⟧.flash self.new) (reply_text result) }
    {
        self.flash.arm(n, kind);
        Reply::Done
    }
}
