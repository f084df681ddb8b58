//! What statements come to, in words.
use mdl::stmt::TableShown;
use mdl::{Progress, Reply};
use std::alloc::AllocError;

/// Writes how far a statement has come.
pub fn push_progress(text: &mut String, progress: &Progress) -> Result<(), AllocError> {
    match progress {
        Progress::Waiting(key, mode) => writeln!(text, "waits for {key} in {mode}"),
        Progress::Pending => text.push_str("still waits\n"),
        Progress::Done(reply) => push_reply(text, reply),
    }
}

// Writes how a statement has ended, and which versions of tables it has read.
fn push_reply(text: &mut String, reply: &Reply) -> Result<(), AllocError> {
    match reply {
        Reply::Ok => text.push_str("done\n"),
        Reply::Error(error) => writeln!(text, "error {}", error.number()),
        Reply::Columns(tables) => {
            text.push_str("done")?;
            for TableShown { key, version, .. } in tables.as_slice() {
                write!(text, "; {key}, version {version}")?;
            }
            text.push_str("\n")
        }
        Reply::Number(true) => text.push_str("1\n"),
        Reply::Number(false) => text.push_str("0\n"),
        Reply::Null => text.push_str("NULL\n"),
    }
}
