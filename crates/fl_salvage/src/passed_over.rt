// The pages of a data ring whose rows aren't written.
ghost use Rattle.std.specs.Prelude.{◌≡◌, ◌<◌, ◌+◌, ◌^◌};
ghost use Rattle.fl_salvage.specs.Pages.{AreFew, none_passed, with_passed};

use crate::found::PageFound;

/// How many pages of a data ring were passed over, by the reason. Blank pages aren't counted, since they hold nothing.
#[derive(Clone, Copy, Debug, PartialEq, Eq)]
pub struct PassedOver {
    /// The image ends before them or in them.
    pub missing: u32,
    /// They were begun, and neither committed nor given up.
    pub torn: u32,
    /// They were given up.
    pub void: u32,
    /// They are committed, and their numbers belong to other places.
    pub misplaced: u32,
    /// They are committed, and say to have no row, or more than there is room for.
    pub unformed: u32,
}

impl PassedOver {
    /// No page.
    pub(crate) fn none() -> PassedOver
        ensures { result ≡ none_passed }
    {
        PassedOver {
            missing: 0,
            torn: 0,
            void: 0,
            misplaced: 0,
            unformed: 0,
        }
    }

    /// One page more, if it is passed over.
    pub(crate) fn with(self, found: PageFound, most: u32) -> PassedOver
        requires room { most + 1 < 2 ^ 32 }
        requires few { AreFew most self }
        ensures exact { result ≡ with_passed found self }
        ensures few { AreFew (most + 1) result }
    {
        let mut passed = self;
        match found {
            PageFound::Rows | PageFound::Blank => {}
            PageFound::Missing => passed.missing += 1,
            PageFound::Torn => passed.torn += 1,
            PageFound::Void => passed.void += 1,
            PageFound::Misplaced => passed.misplaced += 1,
            PageFound::Unformed => passed.unformed += 1,
        }
        passed
    }
}
