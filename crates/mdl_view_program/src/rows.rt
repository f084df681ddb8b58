//! Questions about the locks of a server, read from its rows.
ghost use Rattle.std.specs.Prelude.{◌≡◌, ◌++◌, IfErr, IfOk, IfSome, OnOk, map};
ghost use Rattle.std.specs.Io.KnownBytes.{Appends};
ghost use Rattle.mdl_lines.specs.Words.{AppendsPart};
ghost use Rattle.mdl_view_program.specs.RowAnswers.{AnswersBytes, IsRowsFault, LeavesRowsAnswer, explained_by, explained_if, key_name, names_of_rows, upgrades_note};
ghost use Rattle.mdl_view.specs.Upgrades.{upgrades_in};

use crate::answers::answer;
use crate::question::{Form, Question};
use mdl_lines::{Fault, read_all, write_all};
use mdl_lock_rows::{LeftOut, LockKey, LockRows, LockRowsError, Owner, read_lock_rows};
use mdl_view::{Lock, Upgrade, by_now, unexplained_waits, upgrades};
use mdl_view_text::{Names, add_upgrades, add_upgrades_comment, are_all_explained, key_text};
use std::alloc::{AllocError, Global};
use std::io::{Read, Write};
use thiserror::Error;

/// Whether an answer explains all waits of a server's rows.
#[derive(Clone, Copy, Debug, PartialEq, Eq)]
pub enum Explained {
    /// It explains all of them, or there are none.
    Fully,
    /// Some wait has no reason that the rows show, or a row that waits isn't read.
    Partly,
}

/// Why the rows of a server can't be read, or the answer can't be written.
#[derive(Debug, Drop, Error)]
pub enum RowsFault {
    /// The input can't be read as rows.
    #[error("{0}")]
    Rows(LockRowsError),
    /// Memory ran out, or a device failed.
    #[error("{0}")]
    Fails(Fault),
}

/// The answer to a question about rows.
#[derive(Drop)]
struct RowsAnswer {
    /// The text.
    text: Vec<u8>,
    /// Whether all waits are explained.
    explained: Explained,
}

/// Reads the rows of a server's metadata locks, as a client prints them, and writes the answer to a question about the locks. It reads all
/// input before it writes. Returns whether all waits are explained.
#[tactic(auto, using(crate::proofs::RowLemmas::read_refuses_none))]
pub fn view_rows<R: Read, W: Write>(
    alloc: Global,
    question: Question,
    input: &mut R,
    output: &mut W,
) -> Result<Explained, RowsFault>
    ensures refused { IfSome (R.remaining input.old) (λ bytes. IfErr result (IsRowsFault bytes)) }
    ensures written { IfSome (R.remaining input.old) (λ bytes.
        LeavesRowsAnswer (AnswersBytes question bytes) result (W.contents output.old) (W.contents output.new)) }
{
    let text = match read_all(alloc, input) {
        Ok(text) => text,
        Err(fault) => return Err(RowsFault::Fails(fault)),
    };
    let answer = match answer_of_rows(alloc, question, &text) {
        Ok(answer) => answer,
        Err(refusal) => return Err(RowsFault::Rows(refusal)),
    };
    write_answer(output, &answer)
}

// Writes an answer.
fn write_answer<W: Write>(output: &mut W, answer: &RowsAnswer) -> Result<Explained, RowsFault>
    ensures all { OnOk result (Appends (W.contents output.old) (W.contents output.new) answer.now.text.items) }
    ensures same { IfOk result (λ explained. explained ≡ answer.now.explained) }
    ensures part { IfErr result (λ fault. (fault ≡ RowsFault.Fails Fault.Write) × AppendsPart (W.contents output.old) (W.contents output.new) answer.now.text.items) }
{
    match write_all(output, &answer.text) {
        Ok(()) => Ok(answer.explained),
        Err(fault) => Err(RowsFault::Fails(fault)),
    }
}

// The answer to a question about the locks of rows.
#[tactic(auto, using(crate::proofs::RowLemmas::rows_answered))]
fn answer_of_rows(
    alloc: Global,
    question: Question,
    text: &[u8],
) -> Result<RowsAnswer, LockRowsError>
    ensures answer { IfOk result (λ answer. AnswersBytes question text.now answer.explained answer.text.items) }
    ensures refused { IfErr result (λ refusal. IsRowsFault text.now (RowsFault.Rows refusal)) }
{
    let LockRows {
        locks,
        keys,
        owners,
        left_out,
    } = read_lock_rows(alloc, text)?;
    let names = names_of_rows(alloc, owners, &keys)?;
    let held = by_now(alloc, &locks)?;
    let text = answer(alloc, question, &names, &locks, &held, &left_out)?;
    Ok(RowsAnswer {
        text: with_upgrades(alloc, text, question, &names, &locks)?,
        explained: explained_by(alloc, &held, &left_out)?,
    })
}

// An answer, and what is said under it of the locks that are taken for upgraded.
fn with_upgrades(
    alloc: Global,
    answer: Vec<u8>,
    question: Question,
    names: &Names,
    locks: &[Lock],
) -> Result<Vec<u8>, AllocError>
    ensures { IfOk result (λ text. text.items ≡ answer.items ++ upgrades_note question names.now (upgrades_in 0 locks.now)) }
{
    let mut text = answer;
    let found = upgrades(alloc, locks)?;
    add_note(&mut text, alloc, question, names, &found)?;
    Ok(text)
}

// Appends what is said of the locks that are taken for upgraded.
fn add_note(
    out: &mut Vec<u8>,
    alloc: Global,
    question: Question,
    names: &Names,
    found: &[Upgrade],
) -> Result<(), AllocError>
    ensures { OnOk result (out.new.items ≡ out.old.items ++ upgrades_note question names.now found.now) }
{
    match question {
        Question::Why(Form::Text) | Question::Locks(Form::Text) | Question::Waits(Form::Text) =>
            add_upgrades(out, alloc, names, found),
        Question::Why(Form::Json) | Question::Locks(Form::Json) | Question::Waits(Form::Json) => Ok(
            (),
        ),
        Question::Graph => add_upgrades_comment(out, found.len()),
    }
}

// Whether all waits are explained.
fn explained_by(
    alloc: Global,
    locks: &[Lock],
    left_out: &[LeftOut],
) -> Result<Explained, AllocError>
    ensures { IfOk result (λ explained. explained ≡ explained_by locks.now left_out.now) }
{
    let unexplained = unexplained_waits(alloc, locks)?;
    Ok(explained_if(are_all_explained(&unexplained, left_out)))
}

// What is returned if all waits are explained, and if not.
fn explained_if(all: bool) -> Explained
    ensures { result ≡ explained_if all }
{
    if all {
        Explained::Fully
    } else {
        Explained::Partly
    }
}

// The names of the locks of these keys, and what rows say of the sessions.
fn names_of_rows(alloc: Global, owners: Vec<Owner>, keys: &[LockKey]) -> Result<Names, AllocError>
    ensures { IfOk result (λ names. names ≡ names_of_rows owners.items keys.now) }
{
    let mut names = Names::new(alloc, owners);
    for key in keys {
        names.add_lock(name_of_key(alloc, key)?)?;
    }
    Ok(names)
}

// The name of the lock of a key.
fn name_of_key(alloc: Global, key: &LockKey) -> Result<Vec<u8>, AllocError>
    ensures { IfOk result (λ name. name.items ≡ key_name key.now) }
{
    key_text(alloc, key.object_type(), key.schema(), key.name())
}
