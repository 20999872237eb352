// What is known of a page before it is read.

/// What a scan in ascending order of keys knows of a page before it reads it.
#[derive(Clone, Copy, Debug, PartialEq, Eq)]
pub enum Ahead {
    /// It has to be read.
    Wanted,
    /// None of its rows has a first value in the span.
    Missed,
    /// Its first key is above the greatest one wanted, and so is each key behind it.
    Beyond,
}
