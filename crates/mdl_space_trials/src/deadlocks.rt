//! Deadlocks, and the victims of searches, as rows of calls.
use crate::acts::{Act, Row};
use crate::base;
use crate::base::rows::are_right;
use crate::room::{COMMIT, GLOBAL, OTHER_TABLE as B, Story, TABLE as A, first_wrong};
use mdl_key::Mode;
use mdl_space::{Attempt, Begun, Ended, Place, Poll, Search, Settled, TimedOut};
use std::alloc::Global;

const TWO_CYCLES: &[Row] = &[
    (1, Act::TryNow(B, Mode::X, Ok(Attempt::Granted(1)))),
    (2, Act::TryNow(A, Mode::SR, Ok(Attempt::Granted(1)))),
    (3, Act::TryNow(A, Mode::SR, Ok(Attempt::Granted(1)))),
    (2, Act::BeginWait(B, Mode::SR, Ok(Begun::Waiting(1)))),
    (3, Act::BeginWait(B, Mode::SR, Ok(Begun::Waiting(1)))),
    (3, Act::Search(Ok(Search::NoCycle))),
    (1, Act::BeginWait(A, Mode::X, Ok(Begun::Waiting(1)))),
    (1, Act::Search(Ok(Search::Victim(2)))),
    (1, Act::Search(Ok(Search::Victim(3)))),
    (1, Act::Search(Ok(Search::NoCycle))),
    (1, Act::Poll(Ok(Poll::Pending))),
    (2, Act::Poll(Ok(Poll::Settled(Settled::Victim)))),
    (3, Act::Poll(Ok(Poll::Settled(Settled::Victim)))),
    (2, Act::TimeOut(Ok(TimedOut::Already(Settled::Victim)))),
    (1, Act::Kill(2, 1, false)),
    (2, Act::EndWait(Ok(Ended::Victim))),
    (3, Act::EndWait(Ok(Ended::Victim))),
    (2, Act::Release(1, Ok(()))),
    (1, Act::Poll(Ok(Poll::Pending))),
    (3, Act::Release(1, Ok(()))),
    (1, Act::EndWait(Ok(Ended::Granted(2)))),
];

const LEAST_CYCLE: &[Row] = &[
    // Two cycles: 3 and 4 wait for each other, and so do 3 and 2. Session 2 came later.
    (3, Act::TryNow(B, Mode::X, Ok(Attempt::Granted(1)))),
    (4, Act::TryNow(A, Mode::SR, Ok(Attempt::Granted(1)))),
    (2, Act::TryNow(A, Mode::SR, Ok(Attempt::Granted(1)))),
    (4, Act::BeginWait(B, Mode::SW, Ok(Begun::Waiting(1)))),
    (2, Act::BeginWait(B, Mode::SW, Ok(Begun::Waiting(1)))),
    (3, Act::BeginWait(A, Mode::SNRW, Ok(Begun::Waiting(1)))),
    (3, Act::Search(Ok(Search::Victim(2)))),
    (3, Act::Search(Ok(Search::Victim(4)))),
    (3, Act::Search(Ok(Search::NoCycle))),
];

const SHORTEST_CYCLE: &[Row] = &[
    // Two cycles: 5 waits for 1, 1 for 2, and 2 for 5; and 5 and 4 wait for each other.
    (5, Act::TryNow(GLOBAL, Mode::X, Ok(Attempt::Granted(1)))),
    (1, Act::TryNow(A, Mode::SR, Ok(Attempt::Granted(1)))),
    (4, Act::TryNow(A, Mode::SR, Ok(Attempt::Granted(1)))),
    (2, Act::TryNow(B, Mode::X, Ok(Attempt::Granted(1)))),
    (1, Act::BeginWait(B, Mode::SR, Ok(Begun::Waiting(1)))),
    (2, Act::BeginWait(GLOBAL, Mode::IX, Ok(Begun::Waiting(1)))),
    (4, Act::BeginWait(GLOBAL, Mode::IX, Ok(Begun::Waiting(1)))),
    (5, Act::BeginWait(A, Mode::X, Ok(Begun::Waiting(1)))),
    // The request of 1 weighs least of all, but the cycle with 4 is shorter.
    (5, Act::Search(Ok(Search::Victim(5)))),
    (1, Act::Search(Ok(Search::NoCycle))),
    (4, Act::Search(Ok(Search::NoCycle))),
];

const LONGER_CYCLE: &[Row] = &[
    // 2 waits for 1, 3 is behind the pending X of 2, and 1 waits for 3.
    (1, Act::TryNow(A, Mode::SR, Ok(Attempt::Granted(1)))),
    (3, Act::TryNow(B, Mode::X, Ok(Attempt::Granted(1)))),
    (2, Act::BeginWait(A, Mode::X, Ok(Begun::Waiting(1)))),
    (3, Act::BeginWait(A, Mode::SR, Ok(Begun::Waiting(1)))),
    (3, Act::Search(Ok(Search::NoCycle))),
    (1, Act::BeginWait(B, Mode::SR, Ok(Begun::Waiting(1)))),
    // Two of the three requests weigh nothing.
    (1, Act::Search(Ok(Search::Victim(3)))),
    (1, Act::Search(Ok(Search::NoCycle))),
];

const LOST_WAITS: &[Row] = &[
    (1, Act::Search(Ok(Search::NoCycle))),
    (1, Act::TryNow(A, Mode::X, Ok(Attempt::Granted(1)))),
    (2, Act::TryNow(B, Mode::X, Ok(Attempt::Granted(1)))),
    (1, Act::Search(Ok(Search::NoCycle))),
    (1, Act::BeginWait(B, Mode::SR, Ok(Begun::Waiting(1)))),
    (2, Act::BeginWait(A, Mode::SR, Ok(Begun::Waiting(1)))),
    (2, Act::TimeOut(Ok(TimedOut::ByThisCall))),
    // While the lost ticket still waits, neither its session nor the other finds a cycle.
    (2, Act::Search(Ok(Search::NoCycle))),
    (1, Act::Search(Ok(Search::NoCycle))),
    (2, Act::EndWait(Ok(Ended::Timeout))),
    (2, Act::BeginWait(A, Mode::SR, Ok(Begun::Waiting(2)))),
    (2, Act::Search(Ok(Search::Victim(2)))),
];

const BEHIND_A_KILLED_WAIT: &[Row] = &[
    // A request behind one whose wait was killed waits for no session.
    (1, Act::TryNow(A, Mode::SR, Ok(Attempt::Granted(1)))),
    (3, Act::TryNow(B, Mode::X, Ok(Attempt::Granted(1)))),
    (2, Act::BeginWait(A, Mode::X, Ok(Begun::Waiting(1)))),
    (3, Act::BeginWait(A, Mode::SR, Ok(Begun::Waiting(1)))),
    (1, Act::BeginWait(B, Mode::SR, Ok(Begun::Waiting(1)))),
    (1, Act::Kill(2, 1, true)),
    (1, Act::Search(Ok(Search::NoCycle))),
    (3, Act::Poll(Ok(Poll::Pending))),
];

pub(crate) const DEADLOCKS: &[Story] = &[
    Story("each search breaks one cycle", TWO_CYCLES),
    Story("of the shortest cycles the least is chosen", LEAST_CYCLE),
    Story("the shortest cycle is chosen", SHORTEST_CYCLE),
    Story("of a longer cycle one falls", LONGER_CYCLE),
    Story("lost waits are in no cycle", LOST_WAITS),
    Story(
        "nobody is waited for behind a killed wait",
        BEHIND_A_KILLED_WAIT,
    ),
];

// A lock, the mode in which one session holds it, and the mode in which another session requests it.
type Wish = (Place, Mode, Mode);

// Sessions 1 and 2 each request a lock of the other, and a search has to choose this victim.
struct Clash(Wish, Wish, u16);

impl base::rows::Row for Clash {
    fn goes_so(&self, alloc: Global) -> bool {
        let Clash(first, second, victim) = self;
        let rows = [
            (2, Act::TryNow(first.0, first.1, Ok(Attempt::Granted(1)))),
            (1, Act::TryNow(second.0, second.1, Ok(Attempt::Granted(1)))),
            (1, Act::BeginWait(first.0, first.2, Ok(Begun::Waiting(1)))),
            (2, Act::BeginWait(second.0, second.2, Ok(Begun::Waiting(1)))),
            (1, Act::Search(Ok(Search::Victim(*victim)))),
        ];
        first_wrong(alloc, &rows).is_none()
    }
}

const LIGHT_COMMIT: Wish = (COMMIT, Mode::X, Mode::S);

const LIGHT_TABLE: Wish = (A, Mode::X, Mode::SR);

const HEAVY_GLOBAL: Wish = (GLOBAL, Mode::IX, Mode::S);

const HEAVY_TABLE: Wish = (B, Mode::SR, Mode::X);

const VICTIMS: &[Clash] = &[
    Clash(LIGHT_COMMIT, HEAVY_TABLE, 1),
    Clash(LIGHT_COMMIT, HEAVY_GLOBAL, 1),
    Clash(LIGHT_TABLE, HEAVY_GLOBAL, 1),
    Clash((A, Mode::X, Mode::SWLP), (B, Mode::SU, Mode::SU), 1),
    Clash((A, Mode::X, Mode::SW), (B, Mode::SW, Mode::SRO), 1),
    // At equal weights the session with the greatest number is the victim.
    Clash(LIGHT_TABLE, LIGHT_COMMIT, 2),
    Clash(HEAVY_GLOBAL, HEAVY_TABLE, 2),
    Clash((A, Mode::SU, Mode::SU), (GLOBAL, Mode::S, Mode::IX), 2),
    Clash(HEAVY_TABLE, LIGHT_TABLE, 2),
];

#[test]
fn the_lightest_wish_falls(rt: HostRuntime) {
    are_right(&rt, rt.alloc(), VICTIMS);
}
