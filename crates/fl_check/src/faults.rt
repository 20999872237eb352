// The first page that breaks each rule of a table.
ghost use Rattle.std.specs.Prelude.{◌≡◌};
ghost use Rattle.fl_check.specs.Faults.{no_faults, headless, with_keys, is_clear, are_clear};

/// The first page of the flash that breaks each rule of a ring. None where the rule holds, and where it isn't looked at since one
/// that it rests on doesn't: each rests on that on the head, that on the bodies also on the numbers, and that on the keys also on
/// the bodies.
#[derive(Clone, Copy, Debug, PartialEq, Eq)]
pub struct RingFaults {
    pub head: Option<u32>,
    pub state: Option<u32>,
    pub number: Option<u32>,
    pub body: Option<u32>,
    pub keys: Option<u32>,
    pub rest: Option<u32>,
}

/// The first page of the flash that breaks each rule of a table, ring by ring, and then those on the entries of its index and on
/// the references of its rows. These two rest on the heads, the numbers and the bodies of the two rings that they join, and on
/// the states of the data ring and of the variable data.
#[derive(Clone, Copy, Debug, PartialEq, Eq)]
pub struct TableFaults {
    pub index: RingFaults,
    pub rows: RingFaults,
    pub var: RingFaults,
    pub log: RingFaults,
    pub entry: Option<u32>,
    pub blob: Option<u32>,
}

/// What a check of all rules finds of a table.
#[derive(Clone, Copy, Debug, PartialEq, Eq)]
pub enum TableRules {
    /// All of them hold: the rows of the data ring, the kept pages and how many of these are void.
    Kept { rows: u64, pages: u32, voids: u32 },
    /// Some don't.
    Broken(TableFaults),
}

impl RingFaults {
    /// No rule is broken.
    pub(crate) fn none() -> RingFaults
        ensures { result ≡ no_faults }
    {
        RingFaults {
            head: None,
            state: None,
            number: None,
            body: None,
            keys: None,
            rest: None,
        }
    }

    /// The ring has no head, and no other rule is looked at.
    pub(crate) fn headless(page: u32) -> RingFaults
        ensures { result ≡ headless page }
    {
        RingFaults {
            head: Some(page),
            state: None,
            number: None,
            body: None,
            keys: None,
            rest: None,
        }
    }

    /// .. with the first page that breaks the rule on the keys.
    pub(crate) fn with_keys(self, keys: Option<u32>) -> RingFaults
        ensures { result ≡ with_keys keys self }
    {
        RingFaults {
            head: self.head,
            state: self.state,
            number: self.number,
            body: self.body,
            keys,
            rest: self.rest,
        }
    }

    /// Whether no page is told.
    fn is_clear(&self) -> bool
        ensures { result ≡ is_clear self.now }
    {
        self.head.is_none()
            && self.state.is_none()
            && self.number.is_none()
            && self.body.is_none()
            && self.keys.is_none()
            && self.rest.is_none()
    }
}

impl TableFaults {
    /// Whether no page is told.
    pub(crate) fn are_clear(&self) -> bool
        ensures { result ≡ are_clear self.now }
    {
        self.index.is_clear()
            && self.rows.is_clear()
            && self.var.is_clear()
            && self.log.is_clear()
            && self.entry.is_none()
            && self.blob.is_none()
    }
}
