// Searches for the page of a key among pages whose first keys stand in a list.
mod listed;

use crate::asserts::same;
use fl_flash::FlashFault;
use fl_page::ReadFault;
use fl_search::{bisect, near};
use listed::Listed;

// Pages 2, 5 and 6 are void.
const FIRSTS: [Option<u64>; 8] = [
    Some(10),
    Some(20),
    None,
    Some(40),
    Some(50),
    None,
    None,
    Some(80),
];

// Keys, the page of each among pages 1 to 6, and the calls that it takes from the top.
const PAGES: [(u64, Option<u32>, u64); 6] = [
    (5, None, 6),
    (19, None, 6),
    (20, Some(1), 6),
    (45, Some(3), 4),
    (50, Some(4), 3),
    (99, Some(4), 3),
];

// Whether a search from the top finds the page by so many calls.
fn is_near(key: u64, page: Option<u32>, calls: u64) -> bool {
    let mut keys = Listed::new(FIRSTS, 0);
    let found = near(&mut keys, 1, 6, key);
    (found, keys.calls()) == (Ok(page), calls)
}

// Whether a search by halves finds it by no more calls than there are pages.
fn is_halved(key: u64, page: Option<u32>) -> bool {
    let mut keys = Listed::new(FIRSTS, 0);
    let found = bisect(&mut keys, 1, 7, key);
    (found, keys.calls() <= 6) == (Ok(page), true)
}

// The first of these keys whose pages are found so.
fn found(pages: &[(u64, Option<u32>, u64)]) -> usize {
    for i in 0..pages.len() {
        let (key, page, calls) = pages[i];
        if !is_near(key, page, calls) || !is_halved(key, page) {
            return i;
        }
    }
    pages.len()
}

// Whether searches among no pages find none, and call nothing.
fn none_is_found() -> bool {
    let mut keys = Listed::new(FIRSTS, 0);
    let found = [near(&mut keys, 4, 3, 99), bisect(&mut keys, 4, 4, 99)];
    (found, keys.calls()) == ([Ok(None), Ok(None)], 0)
}

#[test]
fn finds_pages(rt: HostRuntime) {
    same(&rt, &(found(&PAGES), none_is_found()), &(PAGES.len(), true));
}

const FAULT: Result<Option<u32>, ReadFault> = Err(ReadFault::Flash(FlashFault::Media));

// Whether a fault ends a search from the top, and the next one begins anew.
fn near_ends() -> bool {
    let mut keys = Listed::new(FIRSTS, 2);
    let found = [near(&mut keys, 0, 7, 45), near(&mut keys, 0, 7, 45)];
    (found, keys.calls()) == ([FAULT, Ok(Some(3))], 7)
}

// .. a search by halves
fn halves_end() -> bool {
    let mut keys = Listed::new(FIRSTS, 1);
    let found = [bisect(&mut keys, 0, 8, 45), bisect(&mut keys, 0, 8, 45)];
    found == [FAULT, Ok(Some(3))]
}

#[test]
fn ends_at_a_fault(rt: HostRuntime) {
    same(&rt, &(near_ends(), halves_end()), &(true, true));
}
