// Why rows can't be read.
use fl_flash::FlashFault;

/// The page at the place of the page number `wanted` has another number or a count that no page has.
#[derive(Clone, Copy, Debug, PartialEq, Eq)]
pub struct BadPage {
    pub wanted: u32,
    pub found: u32,
    pub count: u32,
}

#[derive(Clone, Copy, Debug, PartialEq, Eq)]
pub enum ReadFault {
    Flash(FlashFault),
    BadPage(BadPage),
}
