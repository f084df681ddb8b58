//! What tests say of cases that are wrong. The message is made here, since each place that makes one has its own proof.
use std::process::Abort;

/// Ends the test unless the case of this name is right.
pub(crate) fn is_right(rt: &impl Abort, what: &str, right: bool) {
    assert!(rt; right, "{what}: wrong");
}

/// Whether a text has all of these parts.
pub(crate) fn has_all(text: &[u8], parts: &[&str]) -> bool {
    match std::str::from_utf8(text) {
        Ok(text) => contains_all(text, parts),
        Err(_) => false,
    }
}

fn contains_all(text: &str, parts: &[&str]) -> bool {
    for part in parts {
        if !text.contains(part) {
            return false;
        }
    }
    true
}
