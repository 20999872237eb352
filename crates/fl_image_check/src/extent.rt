// How far a check of an image goes.

/// How far a check of an image goes.
#[derive(Clone, Copy, Debug, PartialEq, Eq)]
pub enum Extent {
    /// Up to the first table that isn't sound.
    FirstFault,
    /// Over all tables, and over all rules of each. A rule that one breaks is told by its name too.
    AllTables,
}
