//! The calls of contexts, for transactions: a context keeps a session's tickets by their durations.
ghost use Rattle.std.specs.Prelude.{◌≡◌};
ghost use Rattle.mdl_context.specs.Releases.{ending_explicit, ending_statement, ending_transaction, releasing, releasing_name, rolling_back};
ghost use Rattle.mdl_context.specs.Requests.{acquiring, trying};
ghost use Rattle.mdl_context.specs.Upgrades.{downgrading, upgrading};
ghost use Rattle.mdl_context.specs.Waits.{giving_up_wait, resuming};
ghost use Rattle.mdl_c_parts.specs.Codes.{duration_at, mode_at, namespace_at, no_duration, no_mode};
ghost use Rattle.mdl_c_parts.specs.Names.{Given, NamedIn, ReadIn};
ghost use Rattle.mdl_c_calls.specs.ContextCodes.{acquire_code, acquire_told, done_code, kept_code, mark_in_context, mark_told, resume_code, resume_told, tried_code, tried_told};
ghost use Rattle.mdl_c_calls.specs.Exports.{Replies, Tells};
ghost use Rattle.mdl_c_calls.specs.Managers.{context_fault};
ghost use Rattle.mdl_c_calls.specs.Transactions.{changing_duration, making_explicit, making_transactional, Begins, Ends, Marks, ServesContext, Reports, TellsKept, Untold, MakesWish};

use mdl_c_calls::{Mark, OneSpace};
use std::alloc::Global;

/// Begins a context, which keeps the session's tickets from now on.
#[unsafe(no_mangle)]
pub extern "C" fn gaz_one_context_begin(alloc: Global, space: &mut OneSpace, who: u16) -> u32
    ensures { Begins who space.old.handle.manager result space.new.handle.manager }
{
    mdl_c_calls::gaz_one_context_begin(alloc, space, who)
}

/// Ends a session's context, which gives up its wait and releases all its tickets. The session pins nothing then.
#[unsafe(no_mangle)]
pub extern "C" fn gaz_one_context_end(alloc: Global, space: &mut OneSpace, who: u16) -> u32
    ensures { Ends who space.old.handle.manager result space.new.handle.manager }
{
    mdl_c_calls::gaz_one_context_end(alloc, space, who)
}

/// Acquires a lock for this duration, or begins to wait for it.
#[unsafe(no_mangle)]
pub extern "C" fn gaz_one_acquire(
    alloc: Global,
    space: &mut OneSpace,
    who: u16,
    namespace: u8,
    schema: &[u8],
    table: &[u8],
    mode: u8,
    duration: u8,
    number: &mut u64,
) -> u32
    ensures { MakesWish namespace schema.now table.now mode duration
        (λ wish. ServesContext who (acquiring wish) acquire_code space.old.handle.manager result space.new.handle.manager (Reports acquire_told number.old number.new))
        (λ wrong. Tells wrong space.old.handle.manager result space.new.handle.manager × (number.new ≡ number.old)) }
{
    mdl_c_calls::gaz_one_acquire(
        alloc, space, who, namespace, schema, table, mode, duration, number,
    )
}

/// Acquires a lock for this duration, if that needs no wait.
#[unsafe(no_mangle)]
pub extern "C" fn gaz_one_try_acquire(
    alloc: Global,
    space: &mut OneSpace,
    who: u16,
    namespace: u8,
    schema: &[u8],
    table: &[u8],
    mode: u8,
    duration: u8,
    ticket: &mut u64,
) -> u32
    ensures { MakesWish namespace schema.now table.now mode duration
        (λ wish. ServesContext who (trying wish) tried_code space.old.handle.manager result space.new.handle.manager (Reports tried_told ticket.old ticket.new))
        (λ wrong. Tells wrong space.old.handle.manager result space.new.handle.manager × (ticket.new ≡ ticket.old)) }
{
    mdl_c_calls::gaz_one_try_acquire(
        alloc, space, who, namespace, schema, table, mode, duration, ticket,
    )
}

/// Returns whether the session's context keeps a ticket of a key in a mode at least as strong. Takes no memory.
#[unsafe(no_mangle)]
pub extern "C" fn gaz_one_holds(
    alloc: Global,
    space: &mut OneSpace,
    who: u16,
    namespace: u8,
    schema: &[u8],
    table: &[u8],
    mode: u8,
) -> u32
    ensures { Given no_mode (mode_at mode)
        (λ mode. ReadIn (namespace_at namespace) schema.now table.now
        (λ key. Replies context_fault who (TellsKept who key mode) kept_code Untold space.old.handle.manager result space.new.handle.manager)
        (λ wrong. Tells wrong space.old.handle.manager result space.new.handle.manager))
        (λ wrong. Tells wrong space.old.handle.manager result space.new.handle.manager) }
{
    mdl_c_calls::gaz_one_holds(alloc, space, who, namespace, schema, table, mode)
}

/// Returns the state of the wait of a session's context, and ends the wait if it is settled.
#[unsafe(no_mangle)]
pub extern "C" fn gaz_one_resume(
    alloc: Global,
    space: &mut OneSpace,
    who: u16,
    ticket: &mut u64,
) -> u32
    ensures { ServesContext who resuming resume_code space.old.handle.manager result space.new.handle.manager (Reports resume_told ticket.old ticket.new) }
{
    mdl_c_calls::gaz_one_resume(alloc, space, who, ticket)
}

/// Gives up the wait of a session's context, unless it is settled already, and ends it.
#[unsafe(no_mangle)]
pub extern "C" fn gaz_one_give_up(
    alloc: Global,
    space: &mut OneSpace,
    who: u16,
    ticket: &mut u64,
) -> u32
    ensures { ServesContext who giving_up_wait resume_code space.old.handle.manager result space.new.handle.manager (Reports resume_told ticket.old ticket.new) }
{
    mdl_c_calls::gaz_one_give_up(alloc, space, who, ticket)
}

/// Upgrades a kept ticket to a stronger mode, or begins to wait for that.
#[unsafe(no_mangle)]
pub extern "C" fn gaz_one_context_upgrade(
    alloc: Global,
    space: &mut OneSpace,
    who: u16,
    ticket: u64,
    mode: u8,
    number: &mut u64,
) -> u32
    ensures { Given no_mode (mode_at mode)
        (λ mode. ServesContext who (upgrading ticket mode) acquire_code space.old.handle.manager result space.new.handle.manager (Reports acquire_told number.old number.new))
        (λ wrong. Tells wrong space.old.handle.manager result space.new.handle.manager × (number.new ≡ number.old)) }
{
    mdl_c_calls::gaz_one_context_upgrade(alloc, space, who, ticket, mode, number)
}

/// Downgrades a kept ticket to a weaker mode.
#[unsafe(no_mangle)]
pub extern "C" fn gaz_one_context_downgrade(
    alloc: Global,
    space: &mut OneSpace,
    who: u16,
    ticket: u64,
    mode: u8,
) -> u32
    ensures { Given no_mode (mode_at mode)
        (λ mode. ServesContext who (downgrading ticket mode) done_code space.old.handle.manager result space.new.handle.manager Untold)
        (λ wrong. Tells wrong space.old.handle.manager result space.new.handle.manager) }
{
    mdl_c_calls::gaz_one_context_downgrade(alloc, space, who, ticket, mode)
}

/// Releases a kept ticket.
#[unsafe(no_mangle)]
pub extern "C" fn gaz_one_context_release(
    alloc: Global,
    space: &mut OneSpace,
    who: u16,
    ticket: u64,
) -> u32
    ensures { ServesContext who (releasing ticket) done_code space.old.handle.manager result space.new.handle.manager Untold }
{
    mdl_c_calls::gaz_one_context_release(alloc, space, who, ticket)
}

/// Releases all tickets of a key that the session's context keeps.
#[unsafe(no_mangle)]
pub extern "C" fn gaz_one_release_name(
    alloc: Global,
    space: &mut OneSpace,
    who: u16,
    namespace: u8,
    schema: &[u8],
    table: &[u8],
) -> u32
    ensures { NamedIn (namespace_at namespace) schema.now table.now
        (λ key. ServesContext who (releasing_name key) done_code space.old.handle.manager result space.new.handle.manager Untold)
        (λ wrong. Tells wrong space.old.handle.manager result space.new.handle.manager) }
{
    mdl_c_calls::gaz_one_release_name(alloc, space, who, namespace, schema, table)
}

/// Writes a session's current mark: how many tickets its context keeps for the statement, and how many for the transaction.
#[unsafe(no_mangle)]
pub extern "C" fn gaz_one_savepoint(
    alloc: Global,
    space: &mut OneSpace,
    who: u16,
    mark: &mut Mark,
) -> u32
    ensures { Replies context_fault who (Marks who) (λ _. 0) (Reports mark_told mark.old mark.new) space.old.handle.manager result space.new.handle.manager }
{
    mdl_c_calls::gaz_one_savepoint(alloc, space, who, mark)
}

/// Rolls back to a mark: of the statement's and of the transaction's tickets, keeps the earliest, as many as the mark counted, and releases the rest.
#[unsafe(no_mangle)]
pub extern "C" fn gaz_one_rollback_to(
    alloc: Global,
    space: &mut OneSpace,
    who: u16,
    mark: Mark,
) -> u32
    ensures { ServesContext who (rolling_back (mark_in_context mark)) done_code space.old.handle.manager result space.new.handle.manager Untold }
{
    mdl_c_calls::gaz_one_rollback_to(alloc, space, who, mark)
}

/// Ends a statement: releases its tickets.
#[unsafe(no_mangle)]
pub extern "C" fn gaz_one_end_statement(alloc: Global, space: &mut OneSpace, who: u16) -> u32
    ensures { ServesContext who ending_statement done_code space.old.handle.manager result space.new.handle.manager Untold }
{
    mdl_c_calls::gaz_one_end_statement(alloc, space, who)
}

/// Ends a transaction: releases the tickets of the statement and of the transaction.
#[unsafe(no_mangle)]
pub extern "C" fn gaz_one_end_transaction(alloc: Global, space: &mut OneSpace, who: u16) -> u32
    ensures { ServesContext who ending_transaction done_code space.old.handle.manager result space.new.handle.manager Untold }
{
    mdl_c_calls::gaz_one_end_transaction(alloc, space, who)
}

/// Releases the explicit tickets.
#[unsafe(no_mangle)]
pub extern "C" fn gaz_one_release_explicit(alloc: Global, space: &mut OneSpace, who: u16) -> u32
    ensures { ServesContext who ending_explicit done_code space.old.handle.manager result space.new.handle.manager Untold }
{
    mdl_c_calls::gaz_one_release_explicit(alloc, space, who)
}

/// Keeps a ticket for this duration from now on.
#[unsafe(no_mangle)]
pub extern "C" fn gaz_one_set_duration(
    alloc: Global,
    space: &mut OneSpace,
    who: u16,
    ticket: u64,
    duration: u8,
) -> u32
    ensures { Given no_duration (duration_at duration)
        (λ duration. ServesContext who (changing_duration ticket duration) done_code space.old.handle.manager result space.new.handle.manager Untold)
        (λ wrong. Tells wrong space.old.handle.manager result space.new.handle.manager) }
{
    mdl_c_calls::gaz_one_set_duration(alloc, space, who, ticket, duration)
}

/// Makes all tickets explicit: the context keeps them until they are released.
#[unsafe(no_mangle)]
pub extern "C" fn gaz_one_make_explicit(alloc: Global, space: &mut OneSpace, who: u16) -> u32
    ensures { ServesContext who making_explicit done_code space.old.handle.manager result space.new.handle.manager Untold }
{
    mdl_c_calls::gaz_one_make_explicit(alloc, space, who)
}

/// Makes the explicit tickets, except those of user-level locks, last until the transaction ends.
#[unsafe(no_mangle)]
pub extern "C" fn gaz_one_make_transactional(alloc: Global, space: &mut OneSpace, who: u16) -> u32
    ensures { ServesContext who making_transactional done_code space.old.handle.manager result space.new.handle.manager Untold }
{
    mdl_c_calls::gaz_one_make_transactional(alloc, space, who)
}
