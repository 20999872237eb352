//! A spline over the first keys of pages: where the page of a key is, within an error.
//!
//! A point is a pair of a page's first key and the page's number. The points come in order, and a greedy rule
//! picks some of them as knots: from a knot on, the segment goes as far as the straight line to its end passes
//! every point between within the error, counted in pages. Of the knots the newest are kept.
#![tactic(auto)]

mod corridor;
mod knots;
mod spline;

pub use spline::Spline;
