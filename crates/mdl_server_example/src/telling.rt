//! The server's answers in words.
use crate::server::Answer;
use mdl_stmt::{Progress, Reply, TableShown};
use std::io::{self, Write};

/// Prints what the server answers a session.
pub fn tell<W: Write>(output: &mut W, who: u16, answer: Answer) -> io::Result<()> {
    let told = tell_answer(output, who, &answer);
    drop(answer);
    told
}

// Prints an answer to a session.
fn tell_answer<W: Write>(output: &mut W, who: u16, answer: &Answer) -> io::Result<()> {
    write!(output, "session {who}")?;
    match answer {
        Answer::Progress(Progress::Waiting(key, mode)) => {
            writeln!(output, " waits for {key} in {mode}")
        }
        Answer::Progress(Progress::Pending) => output.write_all(b" still waits\n"),
        Answer::Progress(Progress::Done(reply)) => tell_reply(output, reply),
        Answer::OutOfMemory => output.write_all(b": out of memory\n"),
        Answer::Busy => output.write_all(b" is busy\n"),
        Answer::NoSession => output.write_all(b" isn't there\n"),
    }
}

// Prints how a statement has ended, and which versions of tables it has read.
fn tell_reply<W: Write>(output: &mut W, reply: &Reply) -> io::Result<()> {
    match reply {
        Reply::Ok => output.write_all(b": done\n"),
        Reply::Error(error) => writeln!(output, ": error {}", error.number()),
        Reply::Columns(tables) => {
            output.write_all(b": done")?;
            for TableShown { key, version, .. } in tables.as_slice() {
                write!(output, "; {key}, version {version}")?;
            }
            output.write_all(b"\n")
        }
        Reply::Number(true) => output.write_all(b": 1\n"),
        Reply::Number(false) => output.write_all(b": 0\n"),
        Reply::Null => output.write_all(b": NULL\n"),
    }
}
