//! One lock that the sessions of a script request.
ghost use Rattle.std.specs.Prelude.{◌≡◌, ◌++◌, ◌&&◌, ◌∷◌, [], OnOk, IfOk, IsOkUnless, All, find, not};
ghost use Rattle.mdl_key.specs.BitMaps.{has_bit};
ghost use Rattle.mdl_key.specs.Matrices.{clashes};
ghost use Rattle.mdl_key.specs.Modes.{kind_of};
ghost use Rattle.std.specs.List.{list_any};
ghost use Rattle.std.specs.String.{string_bytes};
ghost use Rattle.mdl_book.specs.Books.{lock_kind};
ghost use Rattle.mdl_book.specs.Granting.{is_grantable};
ghost use Rattle.mdl_book.specs.Tickets.{is_ticket, ticket_of};
ghost use Rattle.mdl_lines.specs.Sessions.{IsScriptSession};
ghost use Rattle.mdl_lock.specs.Answering as answering;
ghost use Rattle.mdl_lock.specs.Answering.{answer_text, text_of};
ghost use Rattle.mdl_lock.specs.Answers.{asked, released, timed_out, next_waiter, grants_until_none, obeyed, all_obeyed, free_lock};
ghost use Rattle.mdl_lock.specs.Locks.{lock_of, AreInModes, IsNumbered, IsOrderly, WereBlockedBy};
ghost use Rattle.mdl_lock.specs.Output.{IsLawfulThroughout, ForgetsNobody, ForgetsNobodyThroughout};

use crate::answer::Answer;
use crate::script_command::{Action, ScriptCommand};
use mdl_book::{Book, BookError, Ticket};
use mdl_key::{Key, Kind, Mode, granted_row};
use mdl_lines::{Fault, push_digits};
use mdl_word::Word;
use std::alloc::{AllocError, Global};

// The number of every ticket and wait: a session has at most one of them.
const THE_ONE: u64 = 1;

// The word of the lock. No ticket of a script is a fast one.
const NO_FAST: Word = Word(0);

/// Executes commands over a lock that no session holds, and returns the text of the answers, a line each.
pub fn answers_to(alloc: Global, kind: Kind, commands: &[ScriptCommand]) -> Result<String, Fault>
    requires { All IsNumbered commands.now }
    ensures text { IfOk result (λ text. string_bytes text ≡ text_of (all_obeyed kind commands.now free_lock).answers) }
    ensures lawful { IsLawfulThroughout kind commands.now }
    ensures none_forgotten { ForgetsNobodyThroughout kind commands.now }
    ensures memory { IsOkUnless result Fault.Memory }
{
    let mut book = Book::new(alloc, key_of(alloc, kind)?);
    let mut text = String::new(alloc);
    for command in commands {
        obey(&mut book, *command, &mut text)?;
    }
    Ok(text)
}

// Executes a command, and writes a line for each answer.
fn obey(book: &mut Book, command: ScriptCommand, out: &mut String) -> Result<(), Fault>
    requires session { IsNumbered command }
    requires orderly { IsOrderly (lock_of book.old) }
    requires none_forgotten { ForgetsNobody (lock_kind book.old) (lock_of book.old) }

    ensures told { OnOk result (string_bytes out.new
        ≡ string_bytes out.old ++ text_of (obeyed (lock_kind book.old) command (lock_of book.old)).answers) }
    ensures left { OnOk result (lock_of book.new ≡ (obeyed (lock_kind book.old) command (lock_of book.old)).lock) }
    ensures orderly { OnOk result (IsOrderly (lock_of book.new)) }
    ensures key { OnOk result (book.new.key ≡ book.old.key) }
    ensures memory { IsOkUnless result Fault.Memory }
{
    match command.action {
        Action::Ask(mode) => {
            let answer = ask(book, command.session, mode)?;
            write_answer(out, answer)
        }
        Action::Release => release(book, command.session, out),
        Action::Timeout => time_out(book, command.session, out),
    }
}

// Requests a mode for a session. The book has room for its ticket, since no session has two.
fn ask(book: &mut Book, session: u16, mode: Mode) -> Result<Answer, Fault>
    requires session { IsScriptSession session }
    requires orderly { IsOrderly (lock_of book.old) }
    ensures answer { IfOk result (λ answer. asked (lock_kind book.old) session mode (lock_of book.old) ≡ record { answers = answer ∷ []; lock = lock_of book.new }) }
    ensures orderly { OnOk result (IsOrderly (lock_of book.new)) }
    ensures key { OnOk result (book.new.key ≡ book.old.key) }
    ensures memory { IsOkUnless result Fault.Memory }
{
    if has_ticket(book.granted(), session) || has_ticket(book.waiting(), session) {
        return Ok(Answer::Refused(session));
    }
    let ticket = Ticket {
        session,
        number: THE_ONE,
        mode,
    };
    if can_grant(book, session, mode) {
        book.grant(ticket, NO_FAST).map_err(memory_fault)?;
        return Ok(Answer::Granted(session, mode));
    }
    book.enqueue(ticket).map_err(memory_fault)?;
    Ok(Answer::Waits(session, mode))
}

// Whether a session's request for a mode can be granted now.
fn can_grant(book: &Book, session: u16, mode: Mode) -> bool
    ensures { result ≡ is_grantable (lock_kind book.now) book.now.granted book.now.waiting session mode }
{
    book.can_grant(session, mode, NO_FAST)
}

// Returns the fault of a book that can fail only because memory runs out.
fn memory_fault(error: BookError) -> Fault
    requires { error ≡ BookError.OutOfMemory }
    ensures { result ≡ Fault.Memory }
{
    match error {
        BookError::OutOfMemory => Fault::Memory,
        BookError::NotHere | BookError::WouldConflict | BookError::Full => unreachable!(),
    }
}

// Releases what a session holds, and grants waiters.
fn release(book: &mut Book, session: u16, out: &mut String) -> Result<(), Fault>
    requires orderly { IsOrderly (lock_of book.old) }
    requires none_forgotten { ForgetsNobody (lock_kind book.old) (lock_of book.old) }
    ensures told { OnOk result (string_bytes out.new
        ≡ string_bytes out.old ++ text_of (released (lock_kind book.old) session (ticket_of session 1 book.old.granted) (lock_of book.old)).answers) }
    ensures left { OnOk result (lock_of book.new ≡ (released (lock_kind book.old) session (ticket_of session 1 book.old.granted) (lock_of book.old)).lock) }
    ensures orderly { OnOk result (IsOrderly (lock_of book.new)) }
    ensures key { OnOk result (book.new.key ≡ book.old.key) }
    ensures memory { IsOkUnless result Fault.Memory }
{
    match book.remove(session, THE_ONE) {
        Ok(ticket) => {
            write_answer(out, Answer::Released(session, ticket.mode))?;
            grant_waiters(book, ticket.mode, out)
        }
        Err(_) => write_answer(out, Answer::Refused(session)),
    }
}

// Removes a session's wait, and grants waiters.
fn time_out(book: &mut Book, session: u16, out: &mut String) -> Result<(), Fault>
    requires orderly { IsOrderly (lock_of book.old) }
    requires none_forgotten { ForgetsNobody (lock_kind book.old) (lock_of book.old) }
    ensures told { OnOk result (string_bytes out.new
        ≡ string_bytes out.old ++ text_of (timed_out (lock_kind book.old) session (ticket_of session 1 book.old.waiting) (lock_of book.old)).answers) }
    ensures left { OnOk result (lock_of book.new ≡ (timed_out (lock_kind book.old) session (ticket_of session 1 book.old.waiting) (lock_of book.old)).lock) }
    ensures orderly { OnOk result (IsOrderly (lock_of book.new)) }
    ensures key { OnOk result (book.new.key ≡ book.old.key) }
    ensures memory { IsOkUnless result Fault.Memory }
{
    match book.cancel(session, THE_ONE) {
        Ok(ticket) => {
            write_answer(out, Answer::TimedOut(session, ticket.mode))?;
            grant_waiters(book, ticket.mode, out)
        }
        Err(_) => write_answer(out, Answer::Refused(session)),
    }
}

// Grants waiters until none can be granted, each time the first in order of arrival. `gone` is the mode of a ticket that is gone, before which none
// could be granted. So only waiters that clash with it can be, and none that clashes with one that was granted since.
fn grant_waiters(book: &mut Book, gone: Mode, out: &mut String) -> Result<(), Fault>
    requires orderly { IsOrderly (lock_of book.old) }
    requires blocked { WereBlockedBy gone (lock_kind book.old) (lock_of book.old) }
    ensures told { OnOk result (string_bytes out.new ≡ string_bytes out.old ++ text_of (grants_until_none (lock_kind book.old) (lock_of book.old)).answers) }
    ensures left { OnOk result (lock_of book.new ≡ (grants_until_none (lock_kind book.old) (lock_of book.old)).lock) }
    ensures orderly { OnOk result (IsOrderly (lock_of book.new)) }
    ensures key { OnOk result (book.new.key ≡ book.old.key) }
    ensures memory { IsOkUnless result Fault.Memory }
{
    let mut hopeful = modes_after(book, gone);
    let most = book.waiting().len();
    for turn in 0..most {
        let Some(next) = next_waiter(book, hopeful) else {
            return Ok(());
        };
        let ticket = book.admit(next.session, next.number).unwrap();
        write_answer(out, Answer::Granted(ticket.session, ticket.mode))?;
        hopeful = modes_beside(book, ticket.mode, hopeful);
    }
    Ok(())
}

// Returns the first waiting ticket, in order of arrival, that can be granted. Its mode has to be one of these, which are a bit map.
fn next_waiter(book: &Book, hopeful: u16) -> Option<Ticket>
    requires { AreInModes hopeful (lock_kind book.now) (lock_of book.now) }
    ensures { result ≡ next_waiter (lock_kind book.now) (lock_of book.now) }
{
    if hopeful == 0 {
        return None;
    }
    first_hopeful(book, hopeful)
}

// Returns the first waiting ticket that can be granted and is in one of these modes.
fn first_hopeful(book: &Book, hopeful: u16) -> Option<Ticket>
    ensures { result ≡ find (λ ticket. has_bit hopeful ticket.mode && is_grantable (lock_kind book.now) book.now.granted book.now.waiting ticket.session ticket.mode) book.now.waiting }
{
    book.waiting().iter().copied().find(|ticket| has_mode(hopeful, ticket.mode)
        && can_grant(book, ticket.session, ticket.mode))
}

// Whether a mode is one of these.
fn has_mode(modes: u16, mode: Mode) -> bool
    ensures { result ≡ has_bit modes mode }
{
    (modes >> mode as u32) & 1 == 1
}

// Returns the modes in which waiters may be granted once a ticket in `gone` is gone, as a bit map.
fn modes_after(book: &Book, gone: Mode) -> u16
    requires { WereBlockedBy gone (lock_kind book.now) (lock_of book.now) }
    ensures { AreInModes result (lock_kind book.now) (lock_of book.now) }
{
    granted_row(book.key().kind(), gone)
}

// Returns these modes without those that clash with a granted one.
fn modes_beside(book: &Book, granted: Mode, modes: u16) -> u16
    ensures { (mode : Mode) → has_bit result mode ≡ (has_bit modes mode && not (clashes (lock_kind book.now) granted mode)) }
{
    modes & !granted_row(book.key().kind(), granted)
}

// Whether a session has a ticket among these.
fn has_ticket(tickets: &[Ticket], session: u16) -> bool
    ensures { result ≡ list_any (is_ticket session 1) tickets.now }
{
    tickets.iter().any(|ticket| ticket.session == session && ticket.number == THE_ONE)
}

// Writes an answer on a line of its own.
fn write_answer(out: &mut String, answer: Answer) -> Result<(), Fault>
    ensures told { OnOk result (string_bytes out.new ≡ string_bytes out.old ++ (answer_text answer ++ 10 ∷ [])) }
    ensures memory { IsOkUnless result Fault.Memory }
{
    match push_answer(out, answer) {
        Ok(()) => Ok(()),
        Err(AllocError) => Err(Fault::Memory),
    }
}

// Appends an answer and a line feed, piece by piece: a formatter takes longer.
fn push_answer(out: &mut String, answer: Answer) -> Result<(), AllocError>
    ensures { OnOk result (string_bytes out.new ≡ string_bytes out.old ++ (answer_text answer ++ 10 ∷ [])) }
{
    match answer {
        Answer::Granted(session, mode) => push_told(out, session, " GRANTED ", mode),
        Answer::Waits(session, mode) => push_told(out, session, " WAITS ", mode),
        Answer::Released(session, mode) => push_told(out, session, " RELEASED ", mode),
        Answer::TimedOut(session, mode) => push_told(out, session, " TIMEDOUT ", mode),
        Answer::Refused(session) => {
            push_digits(out, u64::from(session))?;
            out.push_str(" REFUSED")?;
            out.push('\n')
        }
    }
}

// Appends a session, what became of it, its mode, and a line feed.
fn push_told(out: &mut String, session: u16, what: &str, mode: Mode) -> Result<(), AllocError>
    ensures { OnOk result (string_bytes out.new ≡ string_bytes out.old ++ (answering.told session what.now mode ++ 10 ∷ [])) }
{
    push_digits(out, u64::from(session))?;
    out.push_str(what)?;
    out.push_str(mode.as_str())?;
    out.push('\n')
}

// Returns the key of a lock of this kind.
fn key_of(alloc: Global, kind: Kind) -> Result<Key, Fault>
    ensures kind { IfOk result (λ key. kind_of key.namespace ≡ kind) }
    ensures memory { IsOkUnless result Fault.Memory }
{
    match kind {
        Kind::Scoped => Ok(Key::global(alloc)),
        Kind::Object => match Key::table(alloc, "test", "t") {
            Ok(key) => Ok(key),
            Err(_) => Err(Fault::Memory),
        },
    }
}
