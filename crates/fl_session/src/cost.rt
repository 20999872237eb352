// What the last get or scan cost.

/// The pages that the last get or scan read.
#[derive(Clone, Copy)]
pub(crate) enum Cost {
    /// None was executed yet.
    NothingYet,
    /// A get, which might have read as many as the limit.
    OfGet { reads: u64, limit: u64 },
    OfScan { reads: u64 },
}
