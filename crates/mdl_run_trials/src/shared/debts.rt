//! A session that owes a place a reschedule isn't closed before it has made it. Session 2 owes, others wait.
use crate::shared::acts::{Act, Lock, Memory, Reply};
use crate::shared::rows::{Open, Row, none_is_wrong, open_three};
use mdl_calls::{Ended, Settled};
use mdl_key::Mode;
use mdl_shared::NewError;
use std::process::Abort;
use std::sync::Wait;
use std::test::Fail;

// Rows, and why session 2 can't be closed after them.
type Part = (&'static [Row], Open);

// What rows show, how many places there are, the parts, and the rows after them. Then each session can be closed.
type Story = (&'static str, u16, &'static [Part], &'static [Row]);

// Session 1 waits behind a fast ticket of session 2, which releases it.
const OWES: &[Row] = &[
    (1, Act::Resolve(Lock::Sales), Reply::Place(1)),
    (2, Act::Resolve(Lock::Sales), Reply::Place(1)),
    (2, Act::TryFast(1, Mode::SR), Reply::Granted(1)),
    (2, Act::Owes(1), Reply::Is(false)),
    (1, Act::Begin(1, Mode::X), Reply::Waiting(1)),
    (2, Act::ReleaseFast(1), Reply::Owes(true)),
    (2, Act::Owes(1), Reply::Is(true)),
    (2, Act::Owes(0), Reply::Is(false)),
    (2, Act::Owes(2), Reply::Is(false)),
    (2, Act::Owes(u16::MAX), Reply::Is(false)),
    (1, Act::Owes(1), Reply::Is(false)),
    (1, Act::Poll, Reply::Pending),
];

const PAYS: &[Row] = &[
    (2, Act::Owes(1), Reply::Is(true)),
    (1, Act::Poll, Reply::Pending),
    (2, Act::Reschedule(1), Reply::Done),
    (2, Act::Owes(1), Reply::Is(false)),
    (1, Act::Poll, Reply::Settled(Settled::Granted)),
    (1, Act::End, Reply::Ended(Ended::Granted(1))),
    (1, Act::Release(1), Reply::Done),
];

// The place whose ticket is released last is told first, as it is the lesser one.
const OWES_TWICE: &[Row] = &[
    (1, Act::Resolve(Lock::Sales), Reply::Place(1)),
    (2, Act::Resolve(Lock::Sales), Reply::Place(1)),
    (2, Act::Resolve(Lock::Orders), Reply::Place(2)),
    (3, Act::Resolve(Lock::Orders), Reply::Place(2)),
    (2, Act::TryFast(1, Mode::SR), Reply::Granted(1)),
    (2, Act::TryFast(2, Mode::SW), Reply::Granted(2)),
    (1, Act::Begin(1, Mode::X), Reply::Waiting(1)),
    (3, Act::Begin(2, Mode::X), Reply::Waiting(1)),
    (2, Act::ReleaseFast(2), Reply::Owes(true)),
    (2, Act::ReleaseFast(1), Reply::Owes(true)),
];

const PAYS_THE_LESSER: &[Row] = &[
    (2, Act::Reschedule(1), Reply::Done),
    (2, Act::Owes(1), Reply::Is(false)),
    (2, Act::Owes(2), Reply::Is(true)),
    (1, Act::Poll, Reply::Settled(Settled::Granted)),
    (3, Act::Poll, Reply::Pending),
];

const PAYS_THE_OTHER: &[Row] = &[
    (2, Act::Reschedule(2), Reply::Done),
    (2, Act::Owes(2), Reply::Is(false)),
    (3, Act::Poll, Reply::Settled(Settled::Granted)),
    (1, Act::End, Reply::Ended(Ended::Granted(1))),
    (3, Act::End, Reply::Ended(Ended::Granted(1))),
    (1, Act::Release(1), Reply::Done),
    (3, Act::Release(1), Reply::Done),
];

const PAYS_THE_GREATER: &[Row] = &[
    (2, Act::Reschedule(2), Reply::Done),
    (2, Act::Owes(1), Reply::Is(true)),
    (2, Act::Owes(2), Reply::Is(false)),
    (3, Act::Poll, Reply::Settled(Settled::Granted)),
    (1, Act::Poll, Reply::Pending),
];

const PAYS_THE_REST: &[Row] = &[
    (2, Act::Reschedule(1), Reply::Done),
    (2, Act::Owes(1), Reply::Is(false)),
    (1, Act::Poll, Reply::Settled(Settled::Granted)),
    (1, Act::End, Reply::Ended(Ended::Granted(1))),
    (3, Act::End, Reply::Ended(Ended::Granted(1))),
    (1, Act::Release(1), Reply::Done),
    (3, Act::Release(1), Reply::Done),
];

const HOLDS_ANOTHER: &[Row] = &[
    (1, Act::Resolve(Lock::Sales), Reply::Place(1)),
    (2, Act::Resolve(Lock::Sales), Reply::Place(1)),
    (2, Act::TryFast(1, Mode::SR), Reply::Granted(1)),
    (2, Act::TryFast(1, Mode::S), Reply::Granted(2)),
    (1, Act::Begin(1, Mode::X), Reply::Waiting(1)),
    (2, Act::ReleaseFast(1), Reply::Owes(true)),
];

// The place is owed one reschedule, not two.
const RELEASES_THAT: &[Row] = &[
    (2, Act::Owes(1), Reply::Is(true)),
    (2, Act::ReleaseFast(2), Reply::Owes(true)),
];

// The wait is granted, but session 2 doesn't know that.
const ANOTHER_RESCHEDULES: &[Row] = &[
    (3, Act::Resolve(Lock::Sales), Reply::Place(1)),
    (3, Act::Reschedule(1), Reply::Done),
    (1, Act::Poll, Reply::Settled(Settled::Granted)),
    (3, Act::Owes(1), Reply::Is(false)),
    (2, Act::Owes(1), Reply::Is(true)),
];

const PAYS_IN_VAIN: &[Row] = &[
    (1, Act::End, Reply::Ended(Ended::Granted(1))),
    (1, Act::Release(1), Reply::Done),
    (2, Act::Owes(1), Reply::Is(true)),
    (2, Act::Reschedule(1), Reply::Done),
    (2, Act::Owes(1), Reply::Is(false)),
];

// A release grants the waiters itself, so it leaves no debt, and it pays one.
const RELEASES: &[Row] = &[
    (1, Act::Resolve(Lock::Sales), Reply::Place(1)),
    (2, Act::Resolve(Lock::Sales), Reply::Place(1)),
    (2, Act::TryFast(1, Mode::SR), Reply::Granted(1)),
    (1, Act::Begin(1, Mode::X), Reply::Waiting(1)),
    (2, Act::Release(1), Reply::Done),
    (2, Act::Owes(1), Reply::Is(false)),
    (1, Act::Poll, Reply::Settled(Settled::Granted)),
    (1, Act::End, Reply::Ended(Ended::Granted(1))),
    (1, Act::Release(1), Reply::Done),
    (2, Act::TryFast(1, Mode::S), Reply::Granted(2)),
    (2, Act::ReleaseFast(2), Reply::Owes(false)),
    (2, Act::Owes(1), Reply::Is(false)),
    (2, Act::TryFast(1, Mode::SR), Reply::Granted(3)),
    (2, Act::TryFast(1, Mode::SW), Reply::Granted(4)),
    (1, Act::Begin(1, Mode::X), Reply::Waiting(2)),
    (2, Act::ReleaseFast(3), Reply::Owes(true)),
    (2, Act::Owes(1), Reply::Is(true)),
    (2, Act::Release(4), Reply::Done),
    (2, Act::Owes(1), Reply::Is(false)),
    (1, Act::End, Reply::Ended(Ended::Granted(2))),
    (1, Act::Release(2), Reply::Done),
];

const STORIES: &[Story] = &[
    ("a debt is paid", 1, &[(OWES, Open::Owes(1))], PAYS),
    (
        "the lesser of two places is told first",
        2,
        &[
            (OWES_TWICE, Open::Owes(1)),
            (PAYS_THE_LESSER, Open::Owes(2)),
        ],
        PAYS_THE_OTHER,
    ),
    (
        "the lesser place is told until it is paid",
        2,
        &[
            (OWES_TWICE, Open::Owes(1)),
            (PAYS_THE_GREATER, Open::Owes(1)),
        ],
        PAYS_THE_REST,
    ),
    (
        "a ticket is told before a debt",
        1,
        &[
            (HOLDS_ANOTHER, Open::HoldsTickets),
            (RELEASES_THAT, Open::Owes(1)),
        ],
        PAYS,
    ),
    (
        "another session can't pay a debt",
        1,
        &[(OWES, Open::Owes(1)), (ANOTHER_RESCHEDULES, Open::Owes(1))],
        PAYS_IN_VAIN,
    ),
    ("a release leaves no debt", 1, &[], RELEASES),
];

// Returns the index of the first row with a wrong reply after some rows, if there is one, counted from the first row on.
fn count_on(before: usize, wrong: Option<usize>) -> Option<usize> {
    match wrong {
        Some(row) => Some(before.saturating_add(row)),
        None => None,
    }
}

// Returns the index of the first row with a wrong reply, if there is one, counted over all rows. Session 2 stays open after each part.
fn first_wrong<R: Wait + Abort + AllocGlobal>(
    rt: &R,
    places: u16,
    parts: &[Part],
    rest: &[Row],
) -> Result<Option<usize>, NewError> {
    let mut sessions = open_three(rt, places)?;
    let mut wrong = None;
    let mut made = 0usize;
    for (rows, why) in parts {
        wrong = wrong.or(count_on(made, sessions.first_wrong(rt.alloc(), rows, Memory::Ample)));
        made = made.saturating_add(rows.len());
        let (told, kept) = sessions.keep_two_open(rt);
        assert!(rt; told == *why);
        sessions = kept;
    }
    wrong = wrong.or(count_on(made, sessions.first_wrong(rt.alloc(), rest, Memory::Ample)));
    sessions.close(rt);
    Ok(wrong)
}

#[test]
fn debts_are_paid_before_the_end(rt: HostRuntime) -> Result<(), Fail> {
    for (shown, places, parts, rest) in STORIES {
        none_is_wrong(&rt, shown, first_wrong(&rt, *places, parts, rest)?);
    }
    Ok(())
}
