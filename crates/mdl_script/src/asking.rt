//! The asker, the session that runs in the caller's thread: it creates the first schema, executes its own lines, and audits all books at the
//! end.
ghost use Rattle.std.specs.Prelude.{◌≡◌, [], IfOk, OnOk};
ghost use Rattle.mdl_calls.specs.SessionData.{SpeaksFor};
ghost use Rattle.mdl_calls.specs.Words.{HasNothing};
ghost use Rattle.mdl_stmt.specs.Attendance.{IsCapacity};
ghost use Rattle.mdl_shared.specs.SessionViews.{KeepsLists, data_of};
ghost use Rattle.mdl_script.specs.Answers.{AreAnswers, options_of};
ghost use Rattle.mdl_script.specs.Books.{AreOfOneAudit};
ghost use Rattle.mdl_script.specs.Runs.{HasMadeFirst, MakesFirst};

use crate::run::SharedRun;
use crate::turns::Transcript;
use mdl_shared::{Audited, Session};
use mdl_syntax::{Line, Name, Statement};
use mdl_work::{Gate, OpenGate, work, work_lines};
use std::alloc::AllocError;
use std::sync::Wait;

// The schema of tables that are named without one.
const FIRST_SCHEMA: &str = "test";

/// Creates the first schema, unless it is there already. The answer is dropped.
pub(crate) fn make_first_schema<R: Wait, G>(
    run: &SharedRun<R, G>,
    asker: &mut Session<&R>,
    who: u16,
) -> Result<(), AllocError>
    requires capacity { IsCapacity run.now.cache }
    requires speaks { SpeaksFor (data_of asker.old) who }
    requires nothing { HasNothing (data_of asker.old).own }
    requires paid { asker.old.me.0.owes ≡ [] }
    ensures nothing { HasNothing (data_of asker.new).own }
    ensures paid { asker.new.me.0.owes ≡ [] }
    ensures speaks { SpeaksFor (data_of asker.new) who }
    ensures first { OnOk result (MakesFirst (options_of run.now.patience run.now.cache) who asker.old asker.new) }
    ensures made { OnOk result (HasMadeFirst (options_of run.now.patience run.now.cache) who asker.new) }
{
    let Ok(name) = Name::new(run.alloc, FIRST_SCHEMA) else {
        return Err(AllocError);
    };
    let line = Line {
        number: 1,
        session: who,
        statement: Statement::CreateSchema(name),
    };
    let _answers = work_lines(
        run.alloc,
        asker,
        who,
        &[line],
        run.patience,
        run.cache,
        &OpenGate,
    )?;
    Ok(())
}

/// Executes the asker's own lines, if it has any.
pub(crate) fn take_turn<R: Wait, G: Gate>(
    run: &SharedRun<R, G>,
    asker: &mut Session<&R>,
    who: u16,
) -> Result<Transcript, AllocError>
    requires capacity { IsCapacity run.now.cache }
    requires speaks { SpeaksFor (data_of asker.old) who }
    requires nothing { HasNothing (data_of asker.old).own }
    requires paid { asker.old.me.0.owes ≡ [] }
    ensures nothing { HasNothing (data_of asker.new).own }
    ensures paid { asker.new.me.0.owes ≡ [] }
    ensures speaks { SpeaksFor (data_of asker.new) who }
    ensures who { IfOk result (λ own. own.who ≡ who) }
    ensures answered { IfOk result (λ own. AreAnswers (options_of run.now.patience run.now.cache) run.now.script.now who asker.old own.answers.items asker.new) }
{
    let answers = work(
        run.alloc,
        asker,
        who,
        run.script,
        run.patience,
        run.cache,
        run.gate,
    )?;
    Ok(Transcript { who, answers })
}

/// Returns the books of all keys.
pub(crate) fn books<R: Wait>(asker: &mut Session<&R>) -> Result<Vec<Audited>, AllocError>
    requires nothing { HasNothing (data_of asker.old).own }
    requires paid { asker.old.me.0.owes ≡ [] }
    ensures nothing { HasNothing (data_of asker.new).own }
    ensures paid { asker.new.me.0.owes ≡ [] }
    ensures same { KeepsLists asker.old asker.new }
    ensures audited { IfOk result (λ books. AreOfOneAudit books.items asker.old asker.new) }
{
    match asker.audit() {
        Ok(books) => Ok(books),
        Err(_refusal) => Err(AllocError),
    }
}
