//! Which tickets go if the statement of their thread is killed.
ghost use Rattle.std.specs.Prelude.{◌≡◌};
ghost use Rattle.mdl_lock_rows.specs.Tables.{ends_with_statement, is_definition, is_of_changes, is_of_statement, shows_change};

use crate::object_type::ObjectType;
use crate::row::Row;
use indexmap::IndexSet;
use mdl_key::{Duration, Mode};
use mdl_view::LockMode;

/// Whether a row shows that its thread changes a definition.
pub(crate) fn shows_change(row: &Row) -> bool
    ensures { result ≡ shows_change row.now }
{
    matches!(row.duration, Some(Duration::Transaction))
        && is_definition(row.key.object_type())
        && is_of_changes(row.mode)
}

// Whether an object type is that of a table or a stored program.
fn is_definition(object_type: ObjectType) -> bool
    ensures { result ≡ is_definition object_type }
{
    matches!(
        object_type,
        ObjectType::Table
            | ObjectType::Function
            | ObjectType::Procedure
            | ObjectType::Trigger
            | ObjectType::Event
            | ObjectType::PackageBody
    )
}

// Whether only statements that change a definition, and LOCK TABLES, ask for a mode.
fn is_of_changes(mode: LockMode) -> bool
    ensures { result ≡ is_of_changes mode }
{
    matches!(
        mode,
        LockMode::Mdl(Mode::SU | Mode::SNW | Mode::SNRW | Mode::X)
    )
}

/// Whether a row's ticket goes if the statement of its thread is killed, when these threads change a definition.
pub(crate) fn is_of_statement(changers: &IndexSet<u64>, row: &Row) -> bool
    ensures { result ≡ is_of_statement changers.now.keys row.now }
{
    !row.status.is_granted()
        || (!row.owner.may_be_idle()
            && ends_with_statement(changers, row.owner.thread(), row.duration))
}

// Whether a lock that is kept so long goes if the statement of its thread is killed.
fn ends_with_statement(changers: &IndexSet<u64>, thread: u64, duration: Option<Duration>) -> bool
    ensures { result ≡ ends_with_statement changers.now.keys thread duration }
{
    match duration {
        Some(Duration::Statement) => true,
        Some(Duration::Transaction) => changers.contains(&thread),
        Some(Duration::Explicit) | None => false,
    }
}
