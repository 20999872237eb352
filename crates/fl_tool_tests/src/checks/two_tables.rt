// Images of two tables, and what a check of all of them says by all rules.
use super::*;

// Two tables of pages of 64 bytes, two a block, and rings of three blocks: pages 0 to 5, and 6 to 11.
const TWO: &str = "device 64 2\ntable t 8 i32 3 0 0 8 0 10 1 0\ntable s 8 i32 3 0 0 8 0 10 1 0\n";

// Whether a check of all tables writes so of an image, and ends so.
fn are_all_told(
    alloc: Global,
    pieces: &[Piece<'_>],
    status: ToolStatus,
    wanted: &str,
) -> Result<bool, NoMemory> {
    let mut media = medium(alloc, TWO, 768, pieces)?;
    let mut out = MemSink::new(alloc, 200, Vec::new(alloc))?;
    let found = check_all(alloc, &mut RingChecker, &mut media, &mut out);
    Ok(found == status && out.bytes() == wanted.as_bytes())
}

const ALL: &[(&[Piece<'static>], ToolStatus, &str)] = &[
    (
        &[],
        ToolStatus::Done,
        "sound t rows 0 pages 0 voids 0\nsound s rows 0 pages 0 voids 0\n",
    ),
    // A page that isn't kept is begun.
    (
        &[(256, &[0])],
        ToolStatus::Unsound,
        "fault t data 4 8 rest\nsound s rows 0 pages 0 voids 0\n",
    ),
    // Another bitmap, in the second table.
    (
        &[(384, &ROW), (392, &[2]), (440, &SEAL)],
        ToolStatus::Unsound,
        "sound t rows 0 pages 0 voids 0\nfault s data 6 4 body\n",
    ),
    (
        &[(256, &[0]), (384, &ROW), (392, &[2]), (440, &SEAL)],
        ToolStatus::Unsound,
        "fault t data 4 8 rest\nfault s data 6 4 body\n",
    ),
    // Two rules of one ring: a number of another place, and a page that isn't kept. Whether page 0 has its body isn't told.
    (
        &[(0, &ROW), (0, &[5]), (8, &[2]), (56, &SEAL), (256, &[0])],
        ToolStatus::Unsound,
        "fault t data 0 3 number\nfault t data 4 8 rest\nsound s rows 0 pages 0 voids 0\n",
    ),
    // A kept page is blank, and one that isn't kept is begun.
    (
        &[(124, &SEAL), (256, &[0])],
        ToolStatus::Unsound,
        "fault t data 0 2 state\nfault t data 4 8 rest\nsound s rows 0 pages 0 voids 0\n",
    ),
    // Without a head no page is kept, and no other rule is looked at.
    (
        &[(124, &SEAL), (252, &SEAL), (380, &SEAL), (256, &[0])],
        ToolStatus::Unsound,
        "fault t data 0 1 head\nsound s rows 0 pages 0 voids 0\n",
    ),
];

#[test]
fn all_tables_are_told(rt: HostRuntime) {
    for (pieces, status, wanted) in ALL {
        let told = are_all_told(rt.alloc(), pieces, *status, wanted);
        same_at(&rt, &told, &Ok(true), wanted);
    }
}
