// The two images of a ship.

/// One of the two images of a ship.
#[derive(Clone, Copy, Debug, PartialEq, Eq)]
pub enum Side {
    /// The image whose records are shipped.
    Source,
    /// The image that takes them.
    Copy,
}
