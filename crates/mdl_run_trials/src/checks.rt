//! What tests say of cases that are wrong. The message is made here, since each place that makes one has its own proof.
use std::process::Abort;

/// Ends the test unless the case of this number is right.
pub(crate) fn is_right(rt: &impl Abort, what: &str, number: usize, right: bool) {
    assert!(rt; right, "{what} {number}: wrong");
}
