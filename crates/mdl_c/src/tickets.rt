//! The calls that request a lock without waiting, and those that change held tickets.
ghost use Rattle.mdl_calls.specs.Words.{Clone_ticket, Downgrade, Merge, Release, Try_now, Upgrade_now};
ghost use Rattle.mdl_c_parts.specs.Answers.{Nothing, Number};
ghost use Rattle.mdl_c_parts.specs.Codes.{mode_at, no_mode};
ghost use Rattle.mdl_c_calls.specs.Exports.{ServesDirect, ServesDirectWish};

use mdl_c_calls::OneSpace;
use std::alloc::Global;

/// Requests a lock at a place that the session pins, without waiting.
#[unsafe(no_mangle)]
pub extern "C" fn gaz_one_try(
    alloc: Global,
    space: &mut OneSpace,
    who: u16,
    place: u16,
    mode: u8,
    ticket: &mut u64,
) -> u32
    ensures { ServesDirectWish no_mode (mode_at mode) (Try_now who place) who space.old.handle.manager result space.new.handle.manager (Number ticket.old ticket.new) }
{
    mdl_c_calls::gaz_one_try(alloc, space, who, place, mode, ticket)
}

/// Releases a ticket.
#[unsafe(no_mangle)]
pub extern "C" fn gaz_one_release(alloc: Global, space: &mut OneSpace, who: u16, ticket: u64) -> u32
    ensures { ServesDirect who (Release who ticket) space.old.handle.manager result space.new.handle.manager Nothing }
{
    mdl_c_calls::gaz_one_release(alloc, space, who, ticket)
}

/// Upgrades a held ticket to a stronger mode, without waiting.
#[unsafe(no_mangle)]
pub extern "C" fn gaz_one_upgrade(
    alloc: Global,
    space: &mut OneSpace,
    who: u16,
    ticket: u64,
    mode: u8,
) -> u32
    ensures { ServesDirectWish no_mode (mode_at mode) (Upgrade_now who ticket) who space.old.handle.manager result space.new.handle.manager Nothing }
{
    mdl_c_calls::gaz_one_upgrade(alloc, space, who, ticket, mode)
}

/// Downgrades a held ticket to a weaker mode.
#[unsafe(no_mangle)]
pub extern "C" fn gaz_one_downgrade(
    alloc: Global,
    space: &mut OneSpace,
    who: u16,
    ticket: u64,
    mode: u8,
) -> u32
    ensures { ServesDirectWish no_mode (mode_at mode) (Downgrade who ticket) who space.old.handle.manager result space.new.handle.manager Nothing }
{
    mdl_c_calls::gaz_one_downgrade(alloc, space, who, ticket, mode)
}

/// Clones a held ticket: grants a second ticket of its place.
#[unsafe(no_mangle)]
pub extern "C" fn gaz_one_clone(
    alloc: Global,
    space: &mut OneSpace,
    who: u16,
    ticket: u64,
    mode: u8,
    copy: &mut u64,
) -> u32
    ensures { ServesDirectWish no_mode (mode_at mode) (Clone_ticket who ticket) who space.old.handle.manager result space.new.handle.manager (Number copy.old copy.new) }
{
    mdl_c_calls::gaz_one_clone(alloc, space, who, ticket, mode, copy)
}

/// Gives a held ticket the mode of another one of its place, and releases the other.
#[unsafe(no_mangle)]
pub extern "C" fn gaz_one_merge(
    alloc: Global,
    space: &mut OneSpace,
    who: u16,
    kept: u64,
    gone: u64,
) -> u32
    ensures { ServesDirect who (Merge who kept gone) space.old.handle.manager result space.new.handle.manager Nothing }
{
    mdl_c_calls::gaz_one_merge(alloc, space, who, kept, gone)
}
