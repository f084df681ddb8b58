//! The answers to questions about a table of locks.
ghost use Rattle.std.specs.Prelude.{◌≡◌, [], IfOk};
ghost use Rattle.mdl_view_program.specs.Answers.{AnswersBooks, IsAnswer, graph_answer, locks_answer, waits_answer, why_answer};

use crate::question::{Form, Question};
use mdl_book::Book;
use mdl_lock_rows::LeftOut;
use mdl_view::{Lock, blockings, locks_of, unexplained_waits};
use mdl_view_text::{
    Findings, Names, add_comments, add_notes, find, graph_text, locks_json, locks_text, names_of,
    waits_json, waits_text, why_json, why_text,
};
use std::alloc::{AllocError, Global};

/// Returns the answer to a question about locks, as text, with the rows of a server that were left out. Only [`Question::Locks`] shows the tickets
/// as they are in `shown`, the same locks as rows show them.
pub fn answer(
    alloc: Global,
    question: Question,
    names: &Names,
    shown: &[Lock],
    locks: &[Lock],
    left_out: &[LeftOut],
) -> Result<Vec<u8>, AllocError>
    ensures { IfOk result (λ text. IsAnswer question names.now shown.now locks.now left_out.now text.items) }
{
    match question {
        Question::Why(form) => answer_why(alloc, form, names, locks, left_out),
        Question::Locks(form) => answer_locks(alloc, form, names, shown, locks, left_out),
        Question::Waits(form) => answer_waits(alloc, form, names, locks, left_out),
        Question::Graph => answer_graph(alloc, names, locks, left_out),
    }
}

// Answers how many requests wait, and what to do about it.
fn answer_why(
    alloc: Global,
    form: Form,
    names: &Names,
    locks: &[Lock],
    left_out: &[LeftOut],
) -> Result<Vec<u8>, AllocError>
    ensures { IfOk result (λ text. IsAnswer (Question.Why form) names.now [] locks.now left_out.now text.items) }
{
    let found = find(alloc, locks)?;
    let text = why_in_form(alloc, form, names, &found, left_out)?;
    Ok(text)
}

// Returns what was found, in this form.
fn why_in_form(
    alloc: Global,
    form: Form,
    names: &Names,
    found: &Findings,
    left_out: &[LeftOut],
) -> Result<Vec<u8>, AllocError>
    ensures { IfOk result (λ text. text.items ≡ why_answer form names.now found.now left_out.now) }
{
    match form {
        Form::Text => why_text(alloc, names, found, left_out),
        Form::Json => why_json(alloc, names, found, left_out),
    }
}

// Answers which tickets there are.
fn answer_locks(
    alloc: Global,
    form: Form,
    names: &Names,
    shown: &[Lock],
    locks: &[Lock],
    left_out: &[LeftOut],
) -> Result<Vec<u8>, AllocError>
    ensures { IfOk result (λ text. text.items ≡ locks_answer form names.now shown.now locks.now left_out.now) }
{
    let unexplained = unexplained_waits(alloc, locks)?;
    if form == Form::Json {
        return locks_json(alloc, names, shown, &unexplained, left_out);
    }
    let mut text = locks_text(alloc, names, shown)?;
    add_notes(&mut text, alloc, &unexplained, left_out)?;
    Ok(text)
}

// Answers who blocks whom.
fn answer_waits(
    alloc: Global,
    form: Form,
    names: &Names,
    locks: &[Lock],
    left_out: &[LeftOut],
) -> Result<Vec<u8>, AllocError>
    ensures { IfOk result (λ text. text.items ≡ waits_answer form names.now locks.now left_out.now) }
{
    let found = blockings(alloc, locks)?;
    let unexplained = unexplained_waits(alloc, locks)?;
    if form == Form::Json {
        return waits_json(alloc, names, &found, &unexplained, left_out);
    }
    let mut text = waits_text(alloc, names, &found)?;
    add_notes(&mut text, alloc, &unexplained, left_out)?;
    Ok(text)
}

// Answers who blocks whom, as a graph.
fn answer_graph(
    alloc: Global,
    names: &Names,
    locks: &[Lock],
    left_out: &[LeftOut],
) -> Result<Vec<u8>, AllocError>
    ensures { IfOk result (λ text. text.items ≡ graph_answer names.now locks.now left_out.now) }
{
    let found = blockings(alloc, locks)?;
    let unexplained = unexplained_waits(alloc, locks)?;
    let mut text = graph_text(alloc, names, &found)?;
    add_comments(&mut text, alloc, &unexplained, left_out)?;
    Ok(text)
}

/// Returns the answer to a question about the locks of books.
#[tactic(auto, using(crate::proofs::AnswerLemmas::books_answered))]
pub fn answer_of_books(
    alloc: Global,
    question: Question,
    books: &[Book],
) -> Result<Vec<u8>, AllocError>
    ensures { IfOk result (λ text. AnswersBooks question books.now text.items) }
{
    let names = names_of(alloc, books)?;
    let locks = locks_of(alloc, books)?;
    answer(alloc, question, &names, &locks, &locks, &[])
}
