//! The contexts of two sessions over the lock space of one thread: keys whose places are all in use, and places that are given to other keys. If
//! a call runs out of memory, its session holds what it held, waits for nothing and keeps no place: another key gets the one that is left over. Then the
//! call is made again.
ghost use Rattle.mdl_growth_trials.specs.Pairs.{AreServed};

use crate::context_acts::{Act, EXPLICIT, Reply, STATEMENT, TRANSACTION, keeps, make, stands};
use crate::core_pair::new_space;
use mdl_context::{Context, Mark};
use mdl_key::Mode;
use mdl_space::{CoreSpace, Settled};
use std::alloc::Global;
use std::marker::Model;
use std::mem::drop;

// The number of places of the space.
const PLACES: u16 = 3;

// A space, and the contexts of its sessions 1 and 2.
#[derive(Drop)]
struct Hall {
    alloc: Global,
    space: CoreSpace,
    first: Context<CoreSpace>,
    second: Context<CoreSpace>,
}

impl Model for Hall {
    ghost use Rattle.mdl_growth_trials.specs.Pairs.{AreServed};

    ghost Value = { Unit };

    ghost view = { λ _. tt };

    ghost invariant = { λ hall. AreServed hall.space hall.first hall.second };
}

impl Hall {
    // Returns a new space whose sessions have nothing.
    fn new(alloc: Global) -> Option<Hall> {
        let space = new_space(alloc, PLACES, 2)?;
        Some(Hall {
            alloc,
            space,
            first: Context::new(alloc, 1),
            second: Context::new(alloc, 2),
        })
    }

    // Makes a call of a session.
    fn make(&mut self, who: u16, act: Act) -> Reply {
        if who == 1 {
            make(self.alloc, &mut self.space, &mut self.first, act)
        } else {
            make(self.alloc, &mut self.space, &mut self.second, act)
        }
    }

    // Whether a session's context keeps the tickets that the session holds, and there are `count` of them.
    fn keeps(&self, who: u16, count: usize) -> bool {
        if who == 1 {
            keeps(&self.space, &self.first, count)
        } else {
            keeps(&self.space, &self.second, count)
        }
    }

    // Returns how many tickets a session has of the statement, of the transaction and in all, and whether it waits.
    fn stands(&self, who: u16) -> (Mark, usize, bool) {
        if who == 1 {
            stands(&self.first)
        } else {
            stands(&self.second)
        }
    }

    // Whether calls have these answers, one after another.
    fn answers(&mut self, calls: &[Call]) -> bool {
        for (who, act, want) in calls {
            if self.make(*who, *act) != *want {
                return false;
            }
        }
        true
    }

    // Whether a row has its answer: at once, or at the second try if the first ran out of memory and left no trace.
    fn outlives(&mut self, row: Row) -> bool {
        let ((who, act, want), count, left) = row;
        let (mark, had, _) = self.stands(who);
        let mut reply = self.make(who, act);
        if reply == Reply::NoMemory && act.takes_memory() {
            let is_as_before = self.stands(who) == (mark, had, false) && self.keeps(who, had);
            if !is_as_before || !self.answers(left) {
                return false;
            }
            reply = self.make(who, act);
        }
        reply == want && self.keeps(who, count)
    }
}

// A session, its call, and the right answer.
type Call = (u16, Act, Reply);

// A call, and the number of tickets that its session has then. And calls that show, if it runs out of memory, that it keeps no place: another key gets
// one. They leave all as it was.
type Row = (Call, usize, &'static [Call]);

// Another key gets a place that isn't in use.
const FIRST_GETS_IT: &[Call] = &[
    (1, Act::Acquire("z", Mode::SR, STATEMENT), Reply::Acquired),
    (1, Act::EndStatement, Reply::Done),
];

const SECOND_GETS_IT: &[Call] = &[
    (2, Act::Acquire("z", Mode::SR, STATEMENT), Reply::Acquired),
    (2, Act::EndStatement, Reply::Done),
];

// Another key gets the place once the ticket there is released.
const FIRST_GIVES_IT: &[Call] = &[
    (1, Act::EndStatement, Reply::Done),
    (1, Act::Acquire("z", Mode::SR, STATEMENT), Reply::Acquired),
    (1, Act::EndStatement, Reply::Done),
    (1, Act::Acquire("d", Mode::X, STATEMENT), Reply::Acquired),
];

const VICTIM: Reply = Reply::Lost(Settled::Victim);

const TIMED_OUT: Reply = Reply::Lost(Settled::Timeout);

const ROWS: &[Row] = &[
    (
        (1, Act::Acquire("a", Mode::SR, TRANSACTION), Reply::Acquired),
        1,
        FIRST_GETS_IT,
    ),
    (
        (2, Act::Acquire("b", Mode::SR, TRANSACTION), Reply::Acquired),
        1,
        SECOND_GETS_IT,
    ),
    (
        (2, Act::Acquire("c", Mode::SR, STATEMENT), Reply::Acquired),
        2,
        FIRST_GETS_IT,
    ),
    (
        (1, Act::Acquire("d", Mode::SR, STATEMENT), Reply::Refused),
        1,
        &[],
    ),
    ((2, Act::EndStatement, Reply::Done), 1, &[]),
    // All places have keys, and one isn't in use. It is given to another key, again and again.
    (
        (1, Act::Acquire("d", Mode::X, STATEMENT), Reply::Acquired),
        2,
        SECOND_GETS_IT,
    ),
    (
        (2, Act::Try("d", Mode::SR, STATEMENT), Reply::WouldWait),
        1,
        FIRST_GIVES_IT,
    ),
    ((1, Act::EndStatement, Reply::Done), 1, &[]),
    (
        (2, Act::Try("e", Mode::SR, STATEMENT), Reply::Acquired),
        2,
        FIRST_GETS_IT,
    ),
    ((2, Act::EndStatement, Reply::Done), 1, &[]),
    (
        (1, Act::Acquire("d", Mode::X, STATEMENT), Reply::Acquired),
        2,
        SECOND_GETS_IT,
    ),
    // A search for deadlocks takes memory, too. Without it the wait is given up.
    (
        (2, Act::Acquire("d", Mode::SR, STATEMENT), Reply::MustWait),
        1,
        FIRST_GIVES_IT,
    ),
    ((2, Act::Resume, Reply::Waits), 1, &[]),
    ((2, Act::GiveUp, TIMED_OUT), 1, &[]),
    ((1, Act::EndStatement, Reply::Done), 1, &[]),
    (
        (1, Act::Acquire("f", Mode::SR, EXPLICIT), Reply::Acquired),
        2,
        SECOND_GETS_IT,
    ),
    // A deadlock. The victim has no place where it waited, so the last key gets that.
    (
        (1, Act::Acquire("b", Mode::X, STATEMENT), Reply::MustWait),
        2,
        &[],
    ),
    (
        (2, Act::Acquire("a", Mode::X, STATEMENT), Reply::MustWait),
        1,
        &[],
    ),
    ((2, Act::Resume, VICTIM), 1, &[]),
    ((1, Act::GiveUp, TIMED_OUT), 2, &[]),
    ((1, Act::EndTransaction, Reply::Done), 1, &[]),
    (
        (2, Act::Acquire("g", Mode::SR, TRANSACTION), Reply::Acquired),
        2,
        FIRST_GETS_IT,
    ),
    ((2, Act::EndTransaction, Reply::Done), 0, &[]),
    // No table has such a lock.
    (
        (1, Act::Acquire("h", Mode::IX, STATEMENT), Reply::Refused),
        1,
        &[],
    ),
    (
        (2, Act::Acquire("i", Mode::SR, STATEMENT), Reply::Acquired),
        1,
        FIRST_GETS_IT,
    ),
    (
        (2, Act::Acquire("j", Mode::SR, STATEMENT), Reply::Acquired),
        2,
        FIRST_GETS_IT,
    ),
];

/// Whether places are given to other keys as they should.
pub(crate) fn places_are_given_anew(alloc: Global) -> bool {
    let Some(mut hall) = Hall::new(alloc) else {
        return false;
    };
    let go_well = all_outlive(&mut hall);
    drop(hall);
    go_well
}

fn all_outlive(hall: &mut Hall) -> bool {
    for row in ROWS {
        if !hall.outlives(*row) {
            return false;
        }
    }
    true
}
