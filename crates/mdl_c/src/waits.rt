//! The calls that begin, settle, end and observe waits.
ghost use Rattle.mdl_calls.specs.Words.{Begin_wait, End_wait, Kill, Poll_wait, Search, Settle_timeout, Wait_of};
ghost use Rattle.mdl_c_parts.specs.Answers.{Nothing, Number};
ghost use Rattle.mdl_c_parts.specs.Codes.{mode_at, no_mode};
ghost use Rattle.mdl_c_calls.specs.Exports.{ServesAnybody, ServesCall, ServesDirect, ServesDirectWish};

use mdl_c_calls::OneSpace;
use std::alloc::Global;

/// Requests a lock at a place that the session pins, and begins to wait for it if it can't be granted now.
#[unsafe(no_mangle)]
pub extern "C" fn gaz_one_begin(
    alloc: Global,
    space: &mut OneSpace,
    who: u16,
    place: u16,
    mode: u8,
    number: &mut u64,
) -> u32
    ensures { ServesDirectWish no_mode (mode_at mode) (Begin_wait who place) who space.old.handle.manager result space.new.handle.manager (Number number.old number.new) }
{
    mdl_c_calls::gaz_one_begin(alloc, space, who, place, mode, number)
}

/// Looks for a deadlock that the session is part of. If there is one, settles the wait of its victim, and writes the victim's session.
#[unsafe(no_mangle)]
pub extern "C" fn gaz_one_search(
    alloc: Global,
    space: &mut OneSpace,
    who: u16,
    victim: &mut u16,
) -> u32
    ensures { ServesDirect who (Search who) space.old.handle.manager result space.new.handle.manager (Number victim.old victim.new) }
{
    mdl_c_calls::gaz_one_search(alloc, space, who, victim)
}

/// Returns the state of a session's wait.
#[unsafe(no_mangle)]
pub extern "C" fn gaz_one_poll(alloc: Global, space: &mut OneSpace, who: u16) -> u32
    ensures { ServesCall who (Poll_wait who) space.old.handle.manager result space.new.handle.manager Nothing }
{
    mdl_c_calls::gaz_one_poll(alloc, space, who)
}

/// Ends a session's wait, which must be settled.
#[unsafe(no_mangle)]
pub extern "C" fn gaz_one_end(
    alloc: Global,
    space: &mut OneSpace,
    who: u16,
    ticket: &mut u64,
) -> u32
    ensures { ServesDirect who (End_wait who) space.old.handle.manager result space.new.handle.manager (Number ticket.old ticket.new) }
{
    mdl_c_calls::gaz_one_end(alloc, space, who, ticket)
}

/// Settles a session's wait as a timeout, unless it is settled already. Returns how it is settled then.
#[unsafe(no_mangle)]
pub extern "C" fn gaz_one_time_out(alloc: Global, space: &mut OneSpace, who: u16) -> u32
    ensures { ServesCall who (Settle_timeout who) space.old.handle.manager result space.new.handle.manager Nothing }
{
    mdl_c_calls::gaz_one_time_out(alloc, space, who)
}

/// Writes the number of a session's wait, if it has one.
#[unsafe(no_mangle)]
pub extern "C" fn gaz_one_wait_of(
    alloc: Global,
    space: &mut OneSpace,
    who: u16,
    number: &mut u64,
) -> u32
    ensures { ServesCall who (Wait_of who) space.old.handle.manager result space.new.handle.manager (Number number.old number.new) }
{
    mdl_c_calls::gaz_one_wait_of(alloc, space, who, number)
}

/// Settles the wait of this number of any session as killed, unless it is settled already or there is none.
#[unsafe(no_mangle)]
pub extern "C" fn gaz_one_kill(alloc: Global, space: &mut OneSpace, target: u16, number: u64) -> u32
    ensures { ServesAnybody (Kill target number) space.old.handle.manager result space.new.handle.manager }
{
    mdl_c_calls::gaz_one_kill(alloc, space, target, number)
}
