//! Held tickets that get other modes: upgrades, downgrades and merges, and each refusal, alone and together with those that are checked later.
use crate::acts::{Act, Row};
use crate::base;
use crate::base::rows::are_right;
use crate::room::{Room, SCHEMA, Story, TABLE};
use mdl_key::Mode;
use mdl_space::{Attempt, Begun, Ended, Held, Poll, Settled, SpaceError, TimedOut, Upgrade};
use std::alloc::Global;

const NOT_HELD: SpaceError = SpaceError::NotHeld;

const NOT_UPGRADABLE: SpaceError = SpaceError::NotUpgradable;

const HAS_WAIT: SpaceError = SpaceError::AlreadyWaiting;

const BAD_MODE: SpaceError = SpaceError::BadMode;

// The session's other ticket doesn't block the session itself, only others.
const BESIDE_OWN_TICKETS: &[Row] = &[
    (1, Act::TryNow(TABLE, Mode::SU, Ok(Attempt::Granted(1)))),
    (1, Act::TryNow(TABLE, Mode::SR, Ok(Attempt::Granted(2)))),
    (1, Act::Upgrade(1, Mode::X, Ok(Upgrade::Upgraded))),
    (2, Act::TryNow(TABLE, Mode::SH, Ok(Attempt::WouldWait))),
    (1, Act::Upgrade(2, Mode::X, Err(NOT_UPGRADABLE))),
    (1, Act::Release(1, Ok(()))),
    (2, Act::TryNow(TABLE, Mode::X, Ok(Attempt::WouldWait))),
    (2, Act::TryNow(TABLE, Mode::SH, Ok(Attempt::Granted(1)))),
];

const BESIDE_OTHERS: &[Row] = &[
    (1, Act::TryNow(TABLE, Mode::SU, Ok(Attempt::Granted(1)))),
    (2, Act::TryNow(TABLE, Mode::SR, Ok(Attempt::Granted(1)))),
    (1, Act::Upgrade(1, Mode::X, Ok(Upgrade::WouldWait))),
    // The ticket's mode is unchanged, so a writer is granted beside it.
    (3, Act::TryNow(TABLE, Mode::SW, Ok(Attempt::Granted(1)))),
    (1, Act::Upgrade(1, Mode::SNW, Ok(Upgrade::WouldWait))),
    (3, Act::Release(1, Ok(()))),
    (1, Act::Upgrade(1, Mode::SNW, Ok(Upgrade::Upgraded))),
    (3, Act::TryNow(TABLE, Mode::SW, Ok(Attempt::WouldWait))),
    (3, Act::TryNow(TABLE, Mode::SR, Ok(Attempt::Granted(2)))),
    (1, Act::Upgrade(1, Mode::SNRW, Ok(Upgrade::WouldWait))),
    // An upgrade to a mode that the ticket covers succeeds, and the ticket keeps its mode.
    (1, Act::Upgrade(1, Mode::SU, Ok(Upgrade::Upgraded))),
    (4, Act::TryNow(TABLE, Mode::SW, Ok(Attempt::WouldWait))),
    (2, Act::Release(1, Ok(()))),
    (3, Act::Release(2, Ok(()))),
    (1, Act::Upgrade(1, Mode::SNRW, Ok(Upgrade::Upgraded))),
    (2, Act::TryNow(TABLE, Mode::SR, Ok(Attempt::WouldWait))),
    (2, Act::TryNow(TABLE, Mode::SH, Ok(Attempt::Granted(2)))),
    (1, Act::WaitOf(1, None)),
];

// A weaker mode is behind a pending X, and X itself is behind no mode.
const BEHIND_WAITERS: &[Row] = &[
    (1, Act::TryNow(TABLE, Mode::SU, Ok(Attempt::Granted(1)))),
    (2, Act::BeginWait(TABLE, Mode::X, Ok(Begun::Waiting(1)))),
    (1, Act::Upgrade(1, Mode::SNW, Ok(Upgrade::WouldWait))),
    (1, Act::Upgrade(1, Mode::SR, Ok(Upgrade::Upgraded))),
    (1, Act::Upgrade(1, Mode::X, Ok(Upgrade::Upgraded))),
    (2, Act::Poll(Ok(Poll::Pending))),
    (1, Act::Release(1, Ok(()))),
    (2, Act::EndWait(Ok(Ended::Granted(1)))),
];

const DOWNGRADES: &[Row] = &[
    (1, Act::TryNow(TABLE, Mode::X, Ok(Attempt::Granted(1)))),
    (2, Act::BeginWait(TABLE, Mode::SR, Ok(Begun::Waiting(1)))),
    (3, Act::BeginWait(TABLE, Mode::SW, Ok(Begun::Waiting(1)))),
    (4, Act::BeginWait(TABLE, Mode::SU, Ok(Begun::Waiting(1)))),
    (1, Act::Downgrade(1, Mode::S, Err(NOT_UPGRADABLE))),
    (2, Act::Poll(Ok(Poll::Pending))),
    (1, Act::Downgrade(1, Mode::SNW, Ok(()))),
    (2, Act::Poll(Ok(Poll::Settled(Settled::Granted)))),
    (3, Act::Poll(Ok(Poll::Pending))),
    (1, Act::Downgrade(1, Mode::SU, Ok(()))),
    (3, Act::Poll(Ok(Poll::Settled(Settled::Granted)))),
    (4, Act::Poll(Ok(Poll::Pending))),
    (2, Act::EndWait(Ok(Ended::Granted(1)))),
    (3, Act::EndWait(Ok(Ended::Granted(1)))),
    (1, Act::Release(1, Ok(()))),
    (4, Act::EndWait(Ok(Ended::Granted(1)))),
    // A session can downgrade while it waits.
    (1, Act::TryNow(SCHEMA, Mode::X, Ok(Attempt::Granted(2)))),
    (2, Act::Release(1, Ok(()))),
    (3, Act::Release(1, Ok(()))),
    (4, Act::Upgrade(1, Mode::X, Ok(Upgrade::Upgraded))),
    (2, Act::BeginWait(TABLE, Mode::SR, Ok(Begun::Waiting(2)))),
    (4, Act::BeginWait(SCHEMA, Mode::S, Ok(Begun::Waiting(2)))),
    (4, Act::Downgrade(1, Mode::SU, Ok(()))),
    (2, Act::EndWait(Ok(Ended::Granted(2)))),
    (4, Act::Poll(Ok(Poll::Pending))),
];

const MERGES: &[Row] = &[
    (1, Act::TryNow(TABLE, Mode::SU, Ok(Attempt::Granted(1)))),
    (1, Act::TryNow(TABLE, Mode::X, Ok(Attempt::Granted(2)))),
    (2, Act::BeginWait(TABLE, Mode::SR, Ok(Begun::Waiting(1)))),
    (1, Act::Merge(1, 2, Ok(()))),
    (1, Act::Release(2, Err(NOT_HELD))),
    (2, Act::Poll(Ok(Poll::Pending))),
    // The first ticket is exclusive now.
    (1, Act::Upgrade(1, Mode::X, Ok(Upgrade::Upgraded))),
    (1, Act::Downgrade(1, Mode::SNW, Ok(()))),
    (2, Act::EndWait(Ok(Ended::Granted(1)))),
    (1, Act::Downgrade(1, Mode::SU, Ok(()))),
    // If two tickets are each as strong as the other, a merge may remove the first of them.
    (2, Act::TryNow(TABLE, Mode::S, Ok(Attempt::Granted(2)))),
    (2, Act::TryNow(TABLE, Mode::SH, Ok(Attempt::Granted(3)))),
    (2, Act::Merge(3, 2, Ok(()))),
    (2, Act::Release(2, Err(NOT_HELD))),
    (2, Act::Release(3, Ok(()))),
    (2, Act::Release(1, Ok(()))),
    (1, Act::Upgrade(1, Mode::X, Ok(Upgrade::Upgraded))),
];

const REFUSED: &[Row] = &[
    (1, Act::Upgrade(1, Mode::X, Err(NOT_HELD))),
    (1, Act::Downgrade(1, Mode::SU, Err(NOT_HELD))),
    (1, Act::Merge(1, 2, Err(NOT_HELD))),
    (1, Act::TryNow(TABLE, Mode::SR, Ok(Attempt::Granted(1)))),
    (1, Act::TryNow(TABLE, Mode::SH, Ok(Attempt::Granted(2)))),
    (1, Act::TryNow(SCHEMA, Mode::X, Ok(Attempt::Granted(3)))),
    // Another session can't use a ticket. That a ticket isn't held is checked first.
    (2, Act::Upgrade(1, Mode::X, Err(NOT_HELD))),
    (2, Act::Downgrade(3, Mode::SU, Err(NOT_HELD))),
    (2, Act::Merge(1, 2, Err(NOT_HELD))),
    (1, Act::Merge(1, 9, Err(NOT_HELD))),
    (1, Act::Merge(9, 1, Err(NOT_HELD))),
    (1, Act::Upgrade(9, Mode::IX, Err(NOT_HELD))),
    // To a mode that the lock doesn't have.
    (1, Act::Upgrade(1, Mode::IX, Err(NOT_UPGRADABLE))),
    (1, Act::Upgrade(3, Mode::SU, Err(NOT_UPGRADABLE))),
    (1, Act::Downgrade(3, Mode::SU, Err(NOT_UPGRADABLE))),
    (1, Act::Upgrade(3, Mode::S, Ok(Upgrade::Upgraded))),
    // With itself, of another place, and with a weaker ticket.
    (1, Act::Merge(1, 1, Err(BAD_MODE))),
    (1, Act::Merge(1, 3, Err(BAD_MODE))),
    (1, Act::Merge(1, 2, Err(BAD_MODE))),
    (1, Act::Merge(2, 1, Ok(()))),
];

// Some of these calls are refused only because the session waits.
const WHILE_WAITING: &[Row] = &[
    (1, Act::TryNow(SCHEMA, Mode::X, Ok(Attempt::Granted(1)))),
    (2, Act::TryNow(TABLE, Mode::SU, Ok(Attempt::Granted(1)))),
    (2, Act::TryNow(TABLE, Mode::SR, Ok(Attempt::Granted(2)))),
    (2, Act::BeginWait(SCHEMA, Mode::IX, Ok(Begun::Waiting(1)))),
    (2, Act::Upgrade(1, Mode::X, Err(HAS_WAIT))),
    (2, Act::Upgrade(1, Mode::SU, Err(HAS_WAIT))),
    (2, Act::Merge(2, 1, Err(HAS_WAIT))),
    (2, Act::Merge(1, 2, Err(HAS_WAIT))),
    (2, Act::Merge(1, 1, Err(HAS_WAIT))),
    (2, Act::Merge(1, 3, Err(NOT_HELD))),
    (2, Act::Upgrade(3, Mode::X, Err(NOT_HELD))),
    (2, Act::Upgrade(2, Mode::X, Err(NOT_UPGRADABLE))),
    (2, Act::Downgrade(1, Mode::SR, Err(NOT_UPGRADABLE))),
    // A settled wait is still a wait until it is ended.
    (2, Act::TimeOut(Ok(TimedOut::ByThisCall))),
    (2, Act::Upgrade(1, Mode::X, Err(HAS_WAIT))),
    (2, Act::Merge(2, 1, Err(HAS_WAIT))),
    (2, Act::EndWait(Ok(Ended::Timeout))),
    (2, Act::Upgrade(1, Mode::X, Ok(Upgrade::Upgraded))),
    (2, Act::Merge(2, 1, Ok(()))),
];

pub(crate) const LIVES: &[Story] = &[
    Story(
        "a session's own tickets are in no upgrade's way",
        BESIDE_OWN_TICKETS,
    ),
    Story(
        "an upgrade that would wait leaves the ticket as it was",
        BESIDE_OTHERS,
    ),
    Story("an upgrade goes before no stronger wish", BEHIND_WAITERS),
    Story("a downgrade grants those who wait", DOWNGRADES),
    Story("two tickets become one", MERGES),
    Story("other modes are refused", REFUSED),
    Story("who waits gets no stronger mode", WHILE_WAITING),
];

// A held mode, a call for another mode, and the ticket's mode afterwards.
struct Changed(Mode, Act, Mode);

const CHANGES: &[Changed] = &[
    Changed(
        Mode::SU,
        Act::Upgrade(1, Mode::SNW, Ok(Upgrade::Upgraded)),
        Mode::SNW,
    ),
    Changed(
        Mode::SU,
        Act::Upgrade(1, Mode::SNRW, Ok(Upgrade::Upgraded)),
        Mode::SNRW,
    ),
    Changed(
        Mode::SU,
        Act::Upgrade(1, Mode::X, Ok(Upgrade::Upgraded)),
        Mode::X,
    ),
    Changed(
        Mode::SNW,
        Act::Upgrade(1, Mode::SNRW, Ok(Upgrade::Upgraded)),
        Mode::SNRW,
    ),
    Changed(
        Mode::SNW,
        Act::Upgrade(1, Mode::X, Ok(Upgrade::Upgraded)),
        Mode::X,
    ),
    Changed(
        Mode::SNRW,
        Act::Upgrade(1, Mode::X, Ok(Upgrade::Upgraded)),
        Mode::X,
    ),
    Changed(
        Mode::X,
        Act::Upgrade(1, Mode::X, Ok(Upgrade::Upgraded)),
        Mode::X,
    ),
    Changed(
        Mode::X,
        Act::Upgrade(1, Mode::SNRW, Ok(Upgrade::Upgraded)),
        Mode::X,
    ),
    Changed(
        Mode::SNRW,
        Act::Upgrade(1, Mode::SNW, Ok(Upgrade::Upgraded)),
        Mode::SNRW,
    ),
    Changed(
        Mode::SU,
        Act::Upgrade(1, Mode::SR, Ok(Upgrade::Upgraded)),
        Mode::SU,
    ),
    Changed(
        Mode::SW,
        Act::Upgrade(1, Mode::SR, Ok(Upgrade::Upgraded)),
        Mode::SW,
    ),
    Changed(
        Mode::S,
        Act::Upgrade(1, Mode::SH, Ok(Upgrade::Upgraded)),
        Mode::S,
    ),
    Changed(
        Mode::SU,
        Act::Upgrade(1, Mode::SW, Err(NOT_UPGRADABLE)),
        Mode::SU,
    ),
    Changed(
        Mode::SU,
        Act::Upgrade(1, Mode::SRO, Err(NOT_UPGRADABLE)),
        Mode::SU,
    ),
    Changed(
        Mode::SRO,
        Act::Upgrade(1, Mode::SNRW, Err(NOT_UPGRADABLE)),
        Mode::SRO,
    ),
    Changed(
        Mode::SW,
        Act::Upgrade(1, Mode::X, Err(NOT_UPGRADABLE)),
        Mode::SW,
    ),
    Changed(
        Mode::SWLP,
        Act::Upgrade(1, Mode::SU, Err(NOT_UPGRADABLE)),
        Mode::SWLP,
    ),
    Changed(
        Mode::SR,
        Act::Upgrade(1, Mode::X, Err(NOT_UPGRADABLE)),
        Mode::SR,
    ),
    Changed(
        Mode::SH,
        Act::Upgrade(1, Mode::SR, Err(NOT_UPGRADABLE)),
        Mode::SH,
    ),
    Changed(
        Mode::S,
        Act::Upgrade(1, Mode::IX, Err(NOT_UPGRADABLE)),
        Mode::S,
    ),
    Changed(
        Mode::X,
        Act::Upgrade(1, Mode::IX, Err(NOT_UPGRADABLE)),
        Mode::X,
    ),
    Changed(Mode::X, Act::Downgrade(1, Mode::SU, Ok(())), Mode::SU),
    Changed(Mode::X, Act::Downgrade(1, Mode::SNW, Ok(())), Mode::SNW),
    Changed(Mode::X, Act::Downgrade(1, Mode::SNRW, Ok(())), Mode::SNRW),
    Changed(Mode::SNW, Act::Downgrade(1, Mode::SU, Ok(())), Mode::SU),
    Changed(
        Mode::X,
        Act::Downgrade(1, Mode::X, Err(NOT_UPGRADABLE)),
        Mode::X,
    ),
    Changed(
        Mode::X,
        Act::Downgrade(1, Mode::SR, Err(NOT_UPGRADABLE)),
        Mode::X,
    ),
    Changed(
        Mode::X,
        Act::Downgrade(1, Mode::IX, Err(NOT_UPGRADABLE)),
        Mode::X,
    ),
    Changed(
        Mode::SNRW,
        Act::Downgrade(1, Mode::SNW, Err(NOT_UPGRADABLE)),
        Mode::SNRW,
    ),
    Changed(
        Mode::SNRW,
        Act::Downgrade(1, Mode::SU, Err(NOT_UPGRADABLE)),
        Mode::SNRW,
    ),
    Changed(
        Mode::SNW,
        Act::Downgrade(1, Mode::SNW, Err(NOT_UPGRADABLE)),
        Mode::SNW,
    ),
    Changed(
        Mode::SNW,
        Act::Downgrade(1, Mode::SR, Err(NOT_UPGRADABLE)),
        Mode::SNW,
    ),
    Changed(
        Mode::SU,
        Act::Downgrade(1, Mode::SU, Err(NOT_UPGRADABLE)),
        Mode::SU,
    ),
    Changed(
        Mode::SU,
        Act::Downgrade(1, Mode::SR, Err(NOT_UPGRADABLE)),
        Mode::SU,
    ),
    Changed(
        Mode::SW,
        Act::Downgrade(1, Mode::SR, Err(NOT_UPGRADABLE)),
        Mode::SW,
    ),
    Changed(
        Mode::SU,
        Act::Downgrade(1, Mode::X, Err(NOT_UPGRADABLE)),
        Mode::SU,
    ),
];

// Whether the first session holds one ticket, in this mode.
fn holds(room: &Room, mode: Mode) -> bool {
    let wanted: &[Held] = &[Held {
        id: 1,
        place: TABLE,
        mode,
    }];
    let Ok(tickets) = room.held(1) else {
        return false;
    };
    let is_so = tickets.as_slice() == wanted;
    drop(tickets);
    is_so
}

// Whether a ticket of the first session in a new room has the wanted mode after a call.
impl base::rows::Row for Changed {
    fn goes_so(&self, alloc: Global) -> bool {
        let Some(mut room) = Room::new(alloc) else {
            return false;
        };
        let held = Act::TryNow(TABLE, self.0, Ok(Attempt::Granted(1)));
        let is_so = room.first_wrong(&[(1, held), (1, self.1)]).is_none() && holds(&room, self.2);
        drop(room);
        is_so
    }
}

#[test]
fn each_mode_has_its_upgrades_and_downgrades(rt: HostRuntime) {
    are_right(&rt, rt.alloc(), CHANGES);
}
