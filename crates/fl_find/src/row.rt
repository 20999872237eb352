// A row of a page.

/// A row of a page: the page's number, and the row's place in it, from 0.
#[derive(Clone, Copy, Debug, PartialEq, Eq)]
pub struct PageRow {
    pub number: u32,
    pub row: usize,
}
