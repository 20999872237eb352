//! A radix table over the knots of a spline: where the segment of a key is, in few comparisons.
//!
//! The keys from the first knot to the last are cut into slots of equal width, a power of two. For each slot the
//! table has the number of knots before it, so the segment of a key is searched among the knots of one slot.
#![tactic(auto)]

mod radix;
mod search;
mod slots;

pub use radix::Radix;
