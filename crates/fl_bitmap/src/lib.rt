//! Values in buckets: the bitmap of a page, and the mask of a span that never misses one of its values.
#![tactic(auto)]

mod buckets;

pub use buckets::Buckets;
