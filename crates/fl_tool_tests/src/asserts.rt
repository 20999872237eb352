// Assertions by one call each: the proof of a test that calls them doesn't read how a failure is told.
use std::fmt::Debug;
use std::process::Abort;

/// Ends a test in which something else was wanted.
pub(crate) fn same<T: Debug + PartialEq>(rt: &impl Abort, found: &T, wanted: &T) {
    assert_eq!(rt; found, wanted);
}

/// .. of which this is one case.
pub(crate) fn same_at<T: Debug + PartialEq, C: Debug>(
    rt: &impl Abort,
    found: &T,
    wanted: &T,
    case: &C,
) {
    assert_eq!(rt; found, wanted, "{case:?}");
}
