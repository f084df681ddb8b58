//! The calls that begin, settle, end and observe waits.
ghost use Rattle.std.specs.Prelude.{◌≡◌};
ghost use Rattle.mdl_calls.specs.Words.{Begin_wait, End_wait, Kill, Poll_wait, Search, Settle_timeout, Wait_of};
ghost use Rattle.mdl_c_parts.specs.Answers.{Nothing, Number};
ghost use Rattle.mdl_c_parts.specs.Codes.{mode_at, no_mode};
ghost use Rattle.mdl_c_calls.specs.Exports.{ServesAnybody, ServesCall, ServesDirect, ServesDirectWish};

use crate::codes::{begun_code, end_code, poll_code, search_code, timeout_code, wait_code};
use crate::handle::OneSpace;
use mdl_c_parts::{CLOSED, NO_MODE, kill_code, mode_of};
use std::alloc::Global;

/// Requests a lock at a place that the session pins, and begins to wait for it if it can't be granted now.
pub fn gaz_one_begin(
    alloc: Global,
    space: &mut OneSpace,
    who: u16,
    place: u16,
    mode: u8,
    number: &mut u64,
) -> u32
    ensures { ServesDirectWish no_mode (mode_at mode) (Begin_wait who place) who space.old.handle.manager result space.new.handle.manager (Number number.old number.new) }
{
    let Some(mode) = mode_of(mode) else {
        return NO_MODE;
    };
    let Some(mut manager) = space.take(alloc) else {
        return CLOSED;
    };
    let code = begun_code(manager.begin_wait(who, place, mode), number);
    space.put(manager);
    code
}

/// Looks for a deadlock that the session is part of. If there is one, settles the wait of its victim, and writes the victim's session.
pub fn gaz_one_search(alloc: Global, space: &mut OneSpace, who: u16, victim: &mut u16) -> u32
    ensures { ServesDirect who (Search who) space.old.handle.manager result space.new.handle.manager (Number victim.old victim.new) }
{
    let Some(mut manager) = space.take(alloc) else {
        return CLOSED;
    };
    let code = search_code(manager.seek(who), victim);
    space.put(manager);
    code
}

/// Returns the state of a session's wait.
pub fn gaz_one_poll(alloc: Global, space: &mut OneSpace, who: u16) -> u32
    ensures { ServesCall who (Poll_wait who) space.old.handle.manager result space.new.handle.manager Nothing }
{
    let Some(mut manager) = space.take(alloc) else {
        return CLOSED;
    };
    let code = poll_code(manager.poll_wait(who));
    space.put(manager);
    code
}

/// Ends a session's wait, which must be settled.
pub fn gaz_one_end(alloc: Global, space: &mut OneSpace, who: u16, ticket: &mut u64) -> u32
    ensures { ServesDirect who (End_wait who) space.old.handle.manager result space.new.handle.manager (Number ticket.old ticket.new) }
{
    let Some(mut manager) = space.take(alloc) else {
        return CLOSED;
    };
    let code = end_code(manager.end_wait(who), ticket);
    space.put(manager);
    code
}

/// Settles a session's wait as a timeout, unless it is settled already. Returns how it is settled then.
pub fn gaz_one_time_out(alloc: Global, space: &mut OneSpace, who: u16) -> u32
    ensures { ServesCall who (Settle_timeout who) space.old.handle.manager result space.new.handle.manager Nothing }
{
    let Some(mut manager) = space.take(alloc) else {
        return CLOSED;
    };
    let code = timeout_code(manager.settle_timeout(who));
    space.put(manager);
    code
}

/// Writes the number of a session's wait, if it has one.
pub fn gaz_one_wait_of(alloc: Global, space: &mut OneSpace, who: u16, number: &mut u64) -> u32
    ensures { ServesCall who (Wait_of who) space.old.handle.manager result space.new.handle.manager (Number number.old number.new) }
{
    let Some(mut manager) = space.take(alloc) else {
        return CLOSED;
    };
    let code = wait_code(manager.wait_of(who), number);
    space.put(manager);
    code
}

/// Settles the wait of this number of any session as killed, unless it is settled already or there is none.
pub fn gaz_one_kill(alloc: Global, space: &mut OneSpace, target: u16, number: u64) -> u32
    ensures { ServesAnybody (Kill target number) space.old.handle.manager result space.new.handle.manager }
{
    let Some(mut manager) = space.take(alloc) else {
        return CLOSED;
    };
    let code = kill_code(manager.kill(target, number));
    space.put(manager);
    code
}
