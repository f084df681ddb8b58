//! Refused growths: if each allocation fails once in turn, the space loses nothing, and goes on.
//!
//! `rt try --test --fail-alloc N` refuses the allocation of that number. Then the call that needed it is made again. So are the calls of `anew`.
use crate::acts::{Act, Row};
use crate::base::rows::{Story, are_told_so};
use crate::room::{ORDINARY, OTHER_TABLE, Room, TABLE};
use crate::wishes::{Shown, Wish};
use mdl_key::Mode;
use mdl_space::{Attempt, Begun, Ended, Search};
use std::alloc::Global;

const SESSIONS: u16 = 16;

/// Creates a room of this number of sessions. Tries again if memory runs out at first.
pub(crate) fn new_room(alloc: Global, sessions: u16) -> Option<Room> {
    match Room::of_keys(alloc, ORDINARY, sessions) {
        Some(room) => Some(room),
        None => Room::of_keys(alloc, ORDINARY, sessions),
    }
}

/// Makes calls one after another, and returns the index of the first that goes wrong. A call that runs out of memory is made again.
pub(crate) fn first_lost(room: &mut Room, rows: &[Row]) -> Option<usize> {
    for (place, (who, act)) in rows.iter().enumerate() {
        let is_right = match room.make(*who, *act) {
            None => room.make(*who, *act),
            answered => answered,
        };
        if is_right != Some(true) {
            return Some(place);
        }
    }
    None
}

const WAIT: Act = Act::BeginWait(OTHER_TABLE, Mode::S, Ok(Begun::Waiting(1)));

const GAINED: Act = Act::EndWait(Ok(Ended::Granted(1)));

// One session gets many tickets, beside a lock that all others wait for.
const CROWD: &[Row] = &[
    (1, Act::TryNow(TABLE, Mode::SW, Ok(Attempt::Granted(1)))),
    (
        2,
        Act::BeginWait(OTHER_TABLE, Mode::X, Ok(Begun::Granted(1))),
    ),
    (1, Act::Clone(1, Mode::SW, Ok(2))),
    (1, Act::Clone(1, Mode::SW, Ok(3))),
    (1, Act::Clone(1, Mode::SW, Ok(4))),
    (1, Act::Clone(1, Mode::SW, Ok(5))),
    (1, Act::Clone(1, Mode::SW, Ok(6))),
    (1, Act::Clone(1, Mode::SW, Ok(7))),
    (1, Act::Clone(1, Mode::SW, Ok(8))),
    (1, Act::Clone(1, Mode::SW, Ok(9))),
    (1, Act::Clone(1, Mode::SW, Ok(10))),
    (1, Act::Clone(1, Mode::SW, Ok(11))),
    (1, Act::Clone(1, Mode::SW, Ok(12))),
    (1, Act::Clone(1, Mode::SW, Ok(13))),
    (1, Act::Clone(1, Mode::SW, Ok(14))),
    (1, Act::Clone(1, Mode::SW, Ok(15))),
    (1, Act::Clone(1, Mode::SW, Ok(16))),
    (1, Act::Clone(1, Mode::SW, Ok(17))),
    (1, Act::Clone(1, Mode::SW, Ok(18))),
    (1, Act::Clone(1, Mode::SW, Ok(19))),
    (1, Act::Clone(1, Mode::SW, Ok(20))),
    (1, Act::Clone(1, Mode::SW, Ok(21))),
    (1, Act::Clone(1, Mode::SW, Ok(22))),
    (1, Act::Clone(1, Mode::SW, Ok(23))),
    (1, Act::Clone(1, Mode::SW, Ok(24))),
    (1, Act::Clone(1, Mode::SW, Ok(25))),
    (1, Act::Clone(1, Mode::SW, Ok(26))),
    (1, Act::Clone(1, Mode::SW, Ok(27))),
    (1, Act::Clone(1, Mode::SW, Ok(28))),
    (1, Act::Clone(1, Mode::SW, Ok(29))),
    (1, Act::Clone(1, Mode::SW, Ok(30))),
    (1, Act::Clone(1, Mode::SW, Ok(31))),
    (1, Act::Clone(1, Mode::SW, Ok(32))),
    (1, Act::Clone(1, Mode::SW, Ok(33))),
    (1, Act::Clone(1, Mode::SW, Ok(34))),
    (1, Act::Clone(1, Mode::SW, Ok(35))),
    (1, Act::Clone(1, Mode::SW, Ok(36))),
    (1, Act::Clone(1, Mode::SW, Ok(37))),
    (1, Act::Clone(1, Mode::SW, Ok(38))),
    (1, Act::Clone(1, Mode::SW, Ok(39))),
    (3, WAIT),
    (4, WAIT),
    (5, WAIT),
    (6, WAIT),
    (7, WAIT),
    (8, WAIT),
    (9, WAIT),
    (10, WAIT),
    (11, WAIT),
    (12, WAIT),
    (13, WAIT),
    (14, WAIT),
    (15, WAIT),
    (16, WAIT),
];

// All of them are granted by one release, which takes no memory.
const GRANTED: &[Row] = &[
    (2, Act::Release(1, Ok(()))),
    (3, GAINED),
    (4, GAINED),
    (5, GAINED),
    (6, GAINED),
    (7, GAINED),
    (8, GAINED),
    (9, GAINED),
    (10, GAINED),
    (11, GAINED),
    (12, GAINED),
    (13, GAINED),
    (14, GAINED),
    (15, GAINED),
    (16, GAINED),
];

const SEARCHES: &[Row] = &[
    (
        1,
        Act::TryNow(OTHER_TABLE, Mode::X, Ok(Attempt::Granted(1))),
    ),
    (2, Act::TryNow(TABLE, Mode::SR, Ok(Attempt::Granted(1)))),
    (3, Act::TryNow(TABLE, Mode::SR, Ok(Attempt::Granted(1)))),
    (
        2,
        Act::BeginWait(OTHER_TABLE, Mode::SR, Ok(Begun::Waiting(1))),
    ),
    (
        3,
        Act::BeginWait(OTHER_TABLE, Mode::SR, Ok(Begun::Waiting(1))),
    ),
    (1, Act::BeginWait(TABLE, Mode::X, Ok(Begun::Waiting(1)))),
    (1, Act::Search(Ok(Search::Victim(2)))),
    (1, Act::Search(Ok(Search::Victim(3)))),
    (1, Act::Search(Ok(Search::NoCycle))),
];

const CHANGES: &[Row] = &[
    (1, Act::TryNow(TABLE, Mode::X, Ok(Attempt::Granted(1)))),
    (1, Act::Redefine(1, Wish::CreateTable, Ok(1))),
    (1, Act::Redefine(1, Wish::AddY, Ok(2))),
    (1, Act::Read(1, Ok((2, Shown::Table(2))))),
    (1, Act::Redefine(1, Wish::DropX, Ok(3))),
    (1, Act::Redefine(1, Wish::PutTable, Ok(4))),
    (1, Act::Redefine(1, Wish::Drop, Ok(5))),
    (1, Act::Read(1, Ok((5, Shown::Nothing)))),
];

// What calls show, the calls that may take memory, and then those that take none.
struct Scarce(&'static str, &'static [Row], &'static [Row]);

const STORIES: &[Scarce] = &[
    Scarce("a crowd", CROWD, GRANTED),
    Scarce("searches", SEARCHES, &[]),
    Scarce("reads and changes", CHANGES, &[]),
];

// The calls are made in a new room.
impl Story for Scarce {
    fn name(&self) -> &'static str {
        self.0
    }

    fn first_wrong(&self, alloc: Global) -> Option<usize> {
        let Some(mut room) = new_room(alloc, SESSIONS) else {
            return Some(self.1.len());
        };
        let wrong = first_lost(&mut room, self.1).or(room.first_wrong(self.2));
        drop(room);
        wrong
    }
}

#[test]
fn calls_outlive_want_of_memory(rt: HostRuntime) {
    are_told_so(&rt, rt.alloc(), STORIES);
}
