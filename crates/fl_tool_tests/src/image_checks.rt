// Checks of an image of two tables, by a checker that says what it is told to.
use crate::asserts::{same, same_at};
use crate::checks::image;
use fl_base::{MemSink, NoMemory, RingPlace};
use fl_check::{CheckFault, Finding, RingFaults, RingName, Rule, TableFaults, TableRules};
use fl_flash::{Flash, MemMedia};
use fl_image::ToolStatus;
use fl_image_check::{CheckTable, check_all, check_image};
use fl_plan::TableConfig;
use std::alloc::Global;

const TEXT: &str =
    "device 128 4\ntable t 8 i32 3 0 0 8 0 10 1 0\ntable s 4 u8,i16 3 0 0 0 -5 1 0 0\n";

const PAGE_BYTES: u16 = 3072;

const SOUND: Finding = Finding::Sound {
    rows: 5,
    pages: 2,
    voids: 1,
};

const FAULT: Finding = Finding::Fault {
    ring: RingName::Data,
    page: 13,
    rule: Rule::Body,
};

const CLEAR: RingFaults = RingFaults {
    head: None,
    state: None,
    number: None,
    body: None,
    keys: None,
    rest: None,
};

// The same fault, while the next page breaks the rule on blank pages too, and one of the log that on keys.
const FAULTS: TableFaults = TableFaults {
    index: CLEAR,
    rows: RingFaults {
        head: None,
        state: None,
        number: None,
        body: Some(13),
        keys: None,
        rest: Some(14),
    },
    var: CLEAR,
    log: RingFaults {
        head: None,
        state: None,
        number: None,
        body: None,
        keys: Some(40),
        rest: None,
    },
    entry: None,
    blob: None,
};

// Says the one of the table that begins at block 0, and the other of the next. There is no memory where it has nothing
// to say.
#[derive(Drop)]
struct Says {
    first: Option<Finding>,
    second: Option<Finding>,
}

impl CheckTable for Says {
    ghost finds = { λ config log flash finding. Unit {0} };

    ghost rules = { λ config log flash rules. Unit {0} };

    fn check_table<F: Flash>(
        &mut self,
        _alloc: Global,
        _flash: &mut F,
        config: &TableConfig,
        _log: Option<RingPlace>,
    ) -> Result<Finding, CheckFault> {
        let found = if config.rows.first_block == 0 {
            self.first
        } else {
            self.second
        };
        match found {
            Some(finding) => Ok(finding),
            None => Err(CheckFault::NoMemory),
        }
    }

    fn check_rules<F: Flash>(
        &mut self,
        alloc: Global,
        flash: &mut F,
        config: &TableConfig,
        log: Option<RingPlace>,
    ) -> Result<TableRules, CheckFault> {
        match self.check_table(alloc, flash, config, log)? {
            Finding::Sound { rows, pages, voids } => Ok(TableRules::Kept { rows, pages, voids }),
            Finding::Fault { .. } => Ok(TableRules::Broken(FAULTS)),
        }
    }
}

// A medium with a new image, of so many bytes in its pages.
fn medium(alloc: Global, pages: u16) -> Result<MemMedia, NoMemory> {
    let bytes = image(alloc, TEXT, pages, &[])?;
    let len = bytes.len();
    MemMedia::new(alloc, bytes, len)
}

// What is said of the two tables, and how much room the sink has.
type Said = (Option<Finding>, Option<Finding>, usize);

// How a check of such a medium ends, and whether it writes so.
fn check(
    alloc: Global,
    media: &mut MemMedia,
    said: Said,
    wanted: &str,
) -> Result<(ToolStatus, bool), NoMemory> {
    let (first, second, room) = said;
    let mut out = MemSink::new(alloc, room, Vec::new(alloc))?;
    let status = check_image(alloc, &mut Says { first, second }, media, &mut out);
    Ok((status, out.bytes() == wanted.as_bytes()))
}

// .. of a new image, of so many bytes in its pages
fn check_new(
    alloc: Global,
    pages: u16,
    said: Said,
    wanted: &str,
) -> Result<(ToolStatus, bool), NoMemory> {
    let mut media = medium(alloc, pages)?;
    check(alloc, &mut media, said, wanted)
}

#[test]
fn lines_come_in_order(rt: HostRuntime) {
    let unsound = Ok((ToolStatus::Unsound, true));
    let said = (Some(SOUND), Some(FAULT), 100);
    let text = "sound t rows 5 pages 2 voids 1\nfault s data 13 4\n";
    same(
        &rt,
        &check_new(rt.alloc(), PAGE_BYTES, said, text),
        &unsound,
    );
    let said = (Some(FAULT), Some(SOUND), 100);
    let text = "fault t data 13 4\n";
    same(
        &rt,
        &check_new(rt.alloc(), PAGE_BYTES, said, text),
        &unsound,
    );
}

// How a check of a new image by all rules ends, where the first table has faults, and whether it writes so.
fn check_by_rules(alloc: Global, wanted: &str) -> Result<(ToolStatus, bool), NoMemory> {
    let mut media = medium(alloc, PAGE_BYTES)?;
    let mut out = MemSink::new(alloc, 100, Vec::new(alloc))?;
    let mut checker = Says {
        first: Some(FAULT),
        second: Some(SOUND),
    };
    let status = check_all(alloc, &mut checker, &mut media, &mut out);
    Ok((status, out.bytes() == wanted.as_bytes()))
}

#[test]
fn all_rules_are_told(rt: HostRuntime) {
    let text =
        "fault t data 13 4 body\nfault t data 14 8 rest\nfault t log 40 5 keys\nsound s rows 5 pages 2 voids 1\n";
    same(
        &rt,
        &check_by_rules(rt.alloc(), text),
        &Ok((ToolStatus::Unsound, true)),
    );
}

// The bytes in the pages, what is said of the second table where the first is sound, the room, and the status.
const CAUSES: &[(u16, Option<Finding>, usize, ToolStatus)] = &[
    (PAGE_BYTES, Some(SOUND), 100, ToolStatus::Done),
    (PAGE_BYTES, None, 100, ToolStatus::NoMemory),
    (PAGE_BYTES, Some(SOUND), 40, ToolStatus::OutWrite),
    (3073, Some(SOUND), 100, ToolStatus::NotImage),
];

// The status of a check of a new image.
fn status_of(alloc: Global, pages: u16, said: Said) -> Result<ToolStatus, NoMemory> {
    let (status, _is_told) = check_new(alloc, pages, said, "")?;
    Ok(status)
}

#[test]
fn statuses_have_their_causes(rt: HostRuntime) {
    for cause in CAUSES {
        let (pages, second, room, wanted) = *cause;
        let status = status_of(rt.alloc(), pages, (Some(SOUND), second, room));
        same_at(&rt, &status, &Ok(wanted), cause);
    }
}

// The status of a check whose medium fails at the first call.
fn status_failing(alloc: Global) -> Result<ToolStatus, NoMemory> {
    let mut media = medium(alloc, PAGE_BYTES)?;
    media.fail_call(1);
    let (status, _is_told) = check(alloc, &mut media, (None, None, 100), "")?;
    Ok(status)
}

#[test]
fn a_medium_that_fails_is_told(rt: HostRuntime) {
    same(&rt, &status_failing(rt.alloc()), &Ok(ToolStatus::Device));
}
