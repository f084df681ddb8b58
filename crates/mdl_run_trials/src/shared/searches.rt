//! Sessions that wait for one another look for deadlocks.
ghost use Rattle.std.specs.Prelude.{◌≡◌, ◌≤◌, List, ◌++◌, length, is_some, true, Ok};
ghost use Rattle.mdl_calls.specs.declared.answers.Search.TheVariants.{NoCycle};
ghost use Rattle.mdl_steps.specs.declared.step_kind.StepKind.TheVariants.{ReadWait};
ghost use Rattle.mdl_steps.specs.declared.view.StepRecord.{StepRecord};
ghost use Rattle.mdl_steps.specs.Lists.{Each};

use crate::shared::acts::{Act, Lock, Memory, Reply};
use crate::shared::rows::{Case, Row, are_right, none_is_wrong, open_three};
use mdl_calls::{Ended, Held, Search, Settled, SpaceError};
use mdl_key::Mode;
use mdl_shared::Session;
use std::sync::Wait;
use std::test::Fail;

/// The requests of two sessions that wait for each other weigh the same, so the victim is the one with the greater number. Then the deadlock is
/// gone. A session that waits alone, or not at all, is in none.
pub(crate) const A_CYCLE: &[Row] = &[
    (1, Act::Resolve(Lock::Sales), Reply::Place(1)),
    (2, Act::Resolve(Lock::Sales), Reply::Place(1)),
    (1, Act::Resolve(Lock::Orders), Reply::Place(2)),
    (2, Act::Resolve(Lock::Orders), Reply::Place(2)),
    (1, Act::Try(1, Mode::X), Reply::Granted(1)),
    (2, Act::Try(2, Mode::X), Reply::Granted(1)),
    (1, Act::Search, Reply::NoCycle),
    (1, Act::Begin(2, Mode::X), Reply::Waiting(1)),
    (1, Act::Search, Reply::NoCycle),
    (2, Act::Begin(1, Mode::X), Reply::Waiting(1)),
    (2, Act::Search, Reply::Victim(2)),
    (2, Act::Search, Reply::NoCycle),
    (1, Act::Search, Reply::NoCycle),
    (1, Act::Poll, Reply::Pending),
    (2, Act::Poll, Reply::Settled(Settled::Victim)),
    (2, Act::End, Reply::Ended(Ended::Victim)),
    (2, Act::Release(1), Reply::Done),
    (1, Act::Search, Reply::NoCycle),
    (1, Act::End, Reply::Ended(Ended::Granted(2))),
    (1, Act::Release(1), Reply::Done),
    (1, Act::Release(2), Reply::Done),
];

// A request to read weighs less than one to change: the session that searches keeps waiting, and the other one is the victim.
const THE_OTHER: &[Row] = &[
    (1, Act::Resolve(Lock::Sales), Reply::Place(1)),
    (2, Act::Resolve(Lock::Sales), Reply::Place(1)),
    (1, Act::Resolve(Lock::Orders), Reply::Place(2)),
    (2, Act::Resolve(Lock::Orders), Reply::Place(2)),
    (1, Act::Try(1, Mode::SR), Reply::Granted(1)),
    (2, Act::Try(2, Mode::X), Reply::Granted(1)),
    (1, Act::Begin(2, Mode::SR), Reply::Waiting(1)),
    (2, Act::Begin(1, Mode::X), Reply::Waiting(1)),
    (2, Act::Search, Reply::Victim(1)),
    (2, Act::Search, Reply::NoCycle),
    (2, Act::Poll, Reply::Pending),
    (1, Act::Kill(1, 1), Reply::Is(false)),
    (1, Act::Poll, Reply::Settled(Settled::Victim)),
    (1, Act::End, Reply::Ended(Ended::Victim)),
    (1, Act::Release(1), Reply::Done),
    (2, Act::End, Reply::Ended(Ended::Granted(2))),
    (2, Act::Release(1), Reply::Done),
    (2, Act::Release(2), Reply::Done),
];

// Two sessions wait for each other.
const INTO_A_CYCLE: &[Row] = &[
    (1, Act::Resolve(Lock::Sales), Reply::Place(1)),
    (2, Act::Resolve(Lock::Sales), Reply::Place(1)),
    (1, Act::Resolve(Lock::Orders), Reply::Place(2)),
    (2, Act::Resolve(Lock::Orders), Reply::Place(2)),
    (1, Act::Try(1, Mode::X), Reply::Granted(1)),
    (2, Act::Try(2, Mode::X), Reply::Granted(1)),
    (1, Act::Begin(2, Mode::X), Reply::Waiting(1)),
    (2, Act::Begin(1, Mode::X), Reply::Waiting(1)),
];

// A lost wait is in no deadlock, even before it is ended, and a granted one neither.
const OUT_OF_IT: &[Row] = &[
    (2, Act::Search, Reply::NoCycle),
    (1, Act::End, Reply::Ended(Ended::Timeout)),
    (1, Act::Release(1), Reply::Done),
    (2, Act::Search, Reply::NoCycle),
    (2, Act::End, Reply::Ended(Ended::Granted(2))),
    (2, Act::Release(1), Reply::Done),
    (2, Act::Release(2), Reply::Done),
];

// Of three sessions that wait in a ring the victim is the one whose request weighs least.
const A_ROUND: &[Row] = &[
    (1, Act::Resolve(Lock::Sales), Reply::Place(1)),
    (3, Act::Resolve(Lock::Sales), Reply::Place(1)),
    (1, Act::Resolve(Lock::Orders), Reply::Place(2)),
    (2, Act::Resolve(Lock::Orders), Reply::Place(2)),
    (2, Act::Resolve(Lock::Goods), Reply::Place(3)),
    (3, Act::Resolve(Lock::Goods), Reply::Place(3)),
    (1, Act::Try(1, Mode::X), Reply::Granted(1)),
    (2, Act::Try(2, Mode::X), Reply::Granted(1)),
    (3, Act::Try(3, Mode::X), Reply::Granted(1)),
    (1, Act::Begin(2, Mode::X), Reply::Waiting(1)),
    (2, Act::Begin(3, Mode::SW), Reply::Waiting(1)),
    (2, Act::Search, Reply::NoCycle),
    (3, Act::Begin(1, Mode::X), Reply::Waiting(1)),
    (3, Act::Search, Reply::Victim(2)),
    (3, Act::Search, Reply::NoCycle),
    (2, Act::End, Reply::Ended(Ended::Victim)),
    (2, Act::Release(1), Reply::Done),
    (1, Act::End, Reply::Ended(Ended::Granted(2))),
    (1, Act::Release(1), Reply::Done),
    (3, Act::End, Reply::Ended(Ended::Granted(2))),
    (3, Act::Release(1), Reply::Done),
    (3, Act::Release(2), Reply::Done),
    (1, Act::Release(2), Reply::Done),
];

const BOTH_AS_BEFORE: &[Held] = &[
    Held {
        id: 1,
        place: 2,
        mode: Mode::SU,
    },
    Held {
        id: 2,
        place: 1,
        mode: Mode::SR,
    },
];

// Two upgrades block each other. The victim keeps both its tickets until it releases them.
const CROSSED: &[Row] = &[
    (1, Act::Resolve(Lock::Sales), Reply::Place(1)),
    (2, Act::Resolve(Lock::Sales), Reply::Place(1)),
    (1, Act::Resolve(Lock::Orders), Reply::Place(2)),
    (2, Act::Resolve(Lock::Orders), Reply::Place(2)),
    (1, Act::Try(1, Mode::SU), Reply::Granted(1)),
    (1, Act::Try(2, Mode::SR), Reply::Granted(2)),
    (2, Act::Try(2, Mode::SU), Reply::Granted(1)),
    (2, Act::Try(1, Mode::SR), Reply::Granted(2)),
    (1, Act::Begin(1, Mode::X), Reply::Waiting(1)),
    (1, Act::Search, Reply::NoCycle),
    (2, Act::Begin(2, Mode::X), Reply::Waiting(1)),
    (2, Act::Search, Reply::Victim(2)),
    (2, Act::End, Reply::Ended(Ended::Victim)),
    (2, Act::Holds(BOTH_AS_BEFORE), Reply::Is(true)),
    (1, Act::Poll, Reply::Pending),
    (2, Act::Release(2), Reply::Done),
    (1, Act::Poll, Reply::Settled(Settled::Granted)),
    (1, Act::End, Reply::Ended(Ended::Granted(3))),
    (1, Act::Merge(1, 3), Reply::Done),
    (1, Act::Release(1), Reply::Done),
    (1, Act::Release(2), Reply::Done),
    (2, Act::Release(1), Reply::Done),
];

const CASES: &[Case] = &[
    ("of two in a cycle one falls", 2, A_CYCLE),
    ("another falls than who searches", 2, THE_OTHER),
    ("of three in a round one falls", 3, A_ROUND),
    ("of two upgrades one falls", 2, CROSSED),
];

// A session that knows that its wait is settled looks for a deadlock. It takes no latch: it makes one step at most, which reads the word of a wait.
fn search_settled<R: Wait>(session: &mut Session<R>) -> Result<Search, SpaceError>
    requires settled { is_some session.old.me.0.told ≡ true }
    ensures none { result ≡ Ok NoCycle }
    ensures steps { (made : List StepRecord) × (session.new.me.0.log ≡ session.old.me.0.log ++ made) × (length made ≤ 1) × Each (λ (e : StepRecord). e.kind ≡ ReadWait) made }
{
    session.search_deadlock()
}

// Whether a session whose wait has timed out is in no deadlock.
fn times_out<R: Wait>(session: &mut Session<R>) -> bool {
    match session.settle_timeout() {
        Ok(_how) => search_settled(session) == Ok(Search::NoCycle),
        Err(_) => false,
    }
}

// Two sessions wait for each other, and one of them times out.
#[test]
fn a_settled_wait_needs_no_latch_to_search(rt: HostRuntime) -> Result<(), Fail> {
    let mut sessions = open_three(&rt, 2)?;
    let begun = sessions.first_wrong(rt.alloc(), INTO_A_CYCLE, Memory::Ample);
    let untangled = times_out(&mut sessions.one);
    let ended = sessions.first_wrong(rt.alloc(), OUT_OF_IT, Memory::Ample);
    sessions.close(&rt);
    none_is_wrong(&rt, "before the timeout", begun);
    none_is_wrong(&rt, "after the timeout", ended);
    assert!(rt; untangled);
    Ok(())
}

#[test]
fn deadlocks_are_found(rt: HostRuntime) -> Result<(), Fail> {
    are_right(&rt, Memory::Ample, CASES)
}
