// Pages of nine bytes and what each is.
use crate::asserts::{same, same_at};
use fl_mark::{PageState, commit_at, mark, state_of, void_at};

const PAGES: &[([u8; 9], PageState)] = &[
    (
        [255, 255, 255, 255, 255, 255, 255, 255, 255],
        PageState::Blank,
    ),
    ([0, 255, 255, 255, 255, 255, 255, 255, 255], PageState::Torn),
    ([255, 0, 0, 0, 1, 255, 255, 255, 255], PageState::Torn),
    ([7, 0, 0, 0, 0, 255, 255, 255, 255], PageState::Committed),
    ([7, 0, 0, 0, 0, 0, 0, 0, 0], PageState::Committed),
    ([7, 0, 0, 255, 255, 0, 0, 0, 0], PageState::Void),
    ([7, 255, 255, 255, 255, 255, 127, 255, 255], PageState::Void),
];

#[test]
fn pages_by_their_bytes(rt: HostRuntime) {
    for (page, want) in PAGES {
        same_at(&rt, &state_of(page), want, page);
    }
}

#[test]
fn the_marks_end_the_page(rt: HostRuntime) {
    let marks = (commit_at(128), void_at(128), mark());
    same(&rt, &marks, &(120, 124, [0, 0, 0, 0]));
}
