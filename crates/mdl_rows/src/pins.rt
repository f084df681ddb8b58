//! What a session pins once it has run a statement, or has left, over any lock space. Each law is proved as the contract of a function
//! that does nothing.
ghost use Rattle.mdl_rows.specs.SessionPins.{LeaversPinNothing};
ghost use Rattle.mdl_rows.specs.StatementPins.{StatementsLeaveNoPin};

use mdl_calls::LockSpace;

/// A statement leaves no pin behind: if its session pinned only places where its context had something, and owed no reschedule, that is so
/// after it, whatever was answered, and also while it waits.
pub fn statements_leave_no_pin<S: LockSpace>()
    ensures { StatementsLeaveNoPin S.LockSpace }
{}

/// A session that leaves pins nothing afterwards, if it pinned only places where its context had something, and owed no reschedule. It may
/// leave while a statement waits.
pub fn leavers_pin_nothing<S: LockSpace>()
    ensures { LeaversPinNothing S.LockSpace }
{}
