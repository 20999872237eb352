// A group of rows.

/// The rows whose key divided by the width of the groups is `group`: how many they are, and the least, the greatest, the
/// sum and the mean of their values of one column. The mean is rounded down.
#[derive(Clone, Copy, Debug, PartialEq, Eq)]
pub struct Group {
    pub group: u64,
    pub count: u64,
    pub least: i128,
    pub greatest: i128,
    pub sum: i128,
    pub mean: i128,
}
