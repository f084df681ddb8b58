//! The calls that request a lock without waiting, and those that change held tickets.
ghost use Rattle.std.specs.Prelude.{◌≡◌};
ghost use Rattle.mdl_calls.specs.Words.{Clone_ticket, Downgrade, Merge, Release, Try_now, Upgrade_now};
ghost use Rattle.mdl_c_parts.specs.Answers.{Nothing, Number};
ghost use Rattle.mdl_c_parts.specs.Codes.{mode_at, no_mode};
ghost use Rattle.mdl_c_calls.specs.Exports.{ServesDirect, ServesDirectWish};

use crate::codes::{attempt_code, clone_code, done_code, upgrade_code};
use crate::handle::OneSpace;
use mdl_c_parts::{CLOSED, NO_MODE, mode_of};
use std::alloc::Global;

/// Requests a lock at a place that the session pins, without waiting.
pub fn gaz_one_try(
    alloc: Global,
    space: &mut OneSpace,
    who: u16,
    place: u16,
    mode: u8,
    ticket: &mut u64,
) -> u32
    ensures { ServesDirectWish no_mode (mode_at mode) (Try_now who place) who space.old.handle.manager result space.new.handle.manager (Number ticket.old ticket.new) }
{
    let Some(mode) = mode_of(mode) else {
        return NO_MODE;
    };
    let Some(mut manager) = space.take(alloc) else {
        return CLOSED;
    };
    let code = attempt_code(manager.try_now(who, place, mode), ticket);
    space.put(manager);
    code
}

/// Releases a ticket.
pub fn gaz_one_release(alloc: Global, space: &mut OneSpace, who: u16, ticket: u64) -> u32
    ensures { ServesDirect who (Release who ticket) space.old.handle.manager result space.new.handle.manager Nothing }
{
    let Some(mut manager) = space.take(alloc) else {
        return CLOSED;
    };
    let code = done_code(manager.release(who, ticket));
    space.put(manager);
    code
}

/// Upgrades a held ticket to a stronger mode, without waiting.
pub fn gaz_one_upgrade(alloc: Global, space: &mut OneSpace, who: u16, ticket: u64, mode: u8) -> u32
    ensures { ServesDirectWish no_mode (mode_at mode) (Upgrade_now who ticket) who space.old.handle.manager result space.new.handle.manager Nothing }
{
    let Some(mode) = mode_of(mode) else {
        return NO_MODE;
    };
    let Some(mut manager) = space.take(alloc) else {
        return CLOSED;
    };
    let code = upgrade_code(manager.upgrade_now(who, ticket, mode));
    space.put(manager);
    code
}

/// Downgrades a held ticket to a weaker mode.
pub fn gaz_one_downgrade(
    alloc: Global,
    space: &mut OneSpace,
    who: u16,
    ticket: u64,
    mode: u8,
) -> u32
    ensures { ServesDirectWish no_mode (mode_at mode) (Downgrade who ticket) who space.old.handle.manager result space.new.handle.manager Nothing }
{
    let Some(mode) = mode_of(mode) else {
        return NO_MODE;
    };
    let Some(mut manager) = space.take(alloc) else {
        return CLOSED;
    };
    let code = done_code(manager.downgrade(who, ticket, mode));
    space.put(manager);
    code
}

/// Clones a held ticket: grants a second ticket of its place.
pub fn gaz_one_clone(
    alloc: Global,
    space: &mut OneSpace,
    who: u16,
    ticket: u64,
    mode: u8,
    copy: &mut u64,
) -> u32
    ensures { ServesDirectWish no_mode (mode_at mode) (Clone_ticket who ticket) who space.old.handle.manager result space.new.handle.manager (Number copy.old copy.new) }
{
    let Some(mode) = mode_of(mode) else {
        return NO_MODE;
    };
    let Some(mut manager) = space.take(alloc) else {
        return CLOSED;
    };
    let code = clone_code(manager.clone_ticket(who, ticket, mode), copy);
    space.put(manager);
    code
}

/// Gives a held ticket the mode of another one of its place, and releases the other.
pub fn gaz_one_merge(alloc: Global, space: &mut OneSpace, who: u16, kept: u64, gone: u64) -> u32
    ensures { ServesDirect who (Merge who kept gone) space.old.handle.manager result space.new.handle.manager Nothing }
{
    let Some(mut manager) = space.take(alloc) else {
        return CLOSED;
    };
    let code = done_code(manager.merge(who, kept, gone));
    space.put(manager);
    code
}
