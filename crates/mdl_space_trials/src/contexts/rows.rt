//! Acts of several sessions as rows.
use crate::base::rows::{self, are_told_so, none_is_wrong};
use crate::contexts::acts::{Act, Reply};
use crate::contexts::{deadlocks, marks, memory, order, places, upgrades, user_locks, waits};
use crate::hall::Hall;
use mdl_context::{ContextError, Resume};
use mdl_space::SpaceError;
use std::alloc::Global;
use std::process::Abort;

// One fewer than there are locks.
const PLACES: u16 = 4;

pub(crate) const STALE: Reply = Reply::Refused(ContextError::StaleSavepoint);

pub(crate) const NOT_HELD: Reply = Reply::Refused(ContextError::NotHeld);

pub(crate) const WAITS: Reply = Reply::Refused(ContextError::Waiting);

pub(crate) const NO_WAIT: Reply = Reply::Refused(ContextError::Space(SpaceError::NoWait));

pub(crate) const NO_PLACE: Reply = Reply::Refused(ContextError::Space(SpaceError::NoPlace));

pub(crate) const NOT_UPGRADABLE: Reply = Reply::Refused(ContextError::Space(
    SpaceError::NotUpgradable,
));

pub(crate) const BAD_MODE: Reply = Reply::Refused(ContextError::Space(SpaceError::BadMode));

// Whether a reply is the wanted one. If a search ran out of memory, the wait was given up and began again: its numbers are the wanted ones or the next.
fn is_wanted(reply: Option<Reply>, wanted: Reply, lacks_memory: bool) -> bool {
    match (reply, wanted) {
        (Some(Reply::MustWait(number)), Reply::MustWait(least)) if lacks_memory =>
            number.wrapping_sub(least) <= 1,
        (Some(Reply::Resumed(Resume::Acquired(id))), Reply::Resumed(Resume::Acquired(least)))
            if lacks_memory => id.wrapping_sub(least) <= 1,
        _ => reply == Some(wanted),
    }
}

/// What a session does, and the wanted reply.
pub(crate) type Row = (u16, Act, Reply);

/// What rows show, and the rows.
pub(crate) struct Story(pub(crate) &'static str, pub(crate) &'static [Row]);

// Memory is ample.
impl rows::Story for Story {
    fn name(&self) -> &'static str {
        self.0
    }

    fn first_wrong(&self, alloc: Global) -> Option<usize> {
        first_wrong(alloc, self.1, false)
    }
}

/// Performs acts one after another, and returns the index of the first whose reply isn't the wanted one. If memory may be refused once, the act that
/// ran out is performed again.
pub(crate) fn first_wrong_in(hall: &mut Hall, rows: &[Row], lacks_memory: bool) -> Option<usize> {
    for (index, (who, act, wanted)) in rows.iter().enumerate() {
        let mut reply = hall.make(*who, *act);
        if lacks_memory && reply.is_none() {
            reply = hall.make(*who, *act);
        }
        if !is_wanted(reply, *wanted, lacks_memory) {
            return Some(index);
        }
    }
    None
}

// The same in a new hall.
fn first_wrong(alloc: Global, rows: &[Row], lacks_memory: bool) -> Option<usize> {
    let Ok(mut hall) = Hall::new(alloc, PLACES) else {
        return Some(rows.len());
    };
    let wrong = first_wrong_in(&mut hall, rows, lacks_memory);
    drop(hall);
    wrong
}

#[test]
fn contexts_do_as_told(rt: HostRuntime) {
    are_told_so(&rt, rt.alloc(), deadlocks::STORIES);
    are_told_so(&rt, rt.alloc(), marks::STORIES);
    are_told_so(&rt, rt.alloc(), order::STORIES);
    are_told_so(&rt, rt.alloc(), places::STORIES);
    are_told_so(&rt, rt.alloc(), upgrades::STORIES);
    are_told_so(&rt, rt.alloc(), user_locks::STORIES);
    are_told_so(&rt, rt.alloc(), waits::STORIES);
}

// Ends the test if a row of a story is wrong when memory may be refused once.
fn are_outlived(rt: &impl Abort, alloc: Global, stories: &[Story]) {
    for Story(what, rows) in stories {
        none_is_wrong(rt, what, first_wrong(alloc, rows, true));
    }
}

// `rt try --test --fail-alloc N` refuses the allocation of that number to one of them.
#[test]
fn contexts_outlive_want_of_memory(rt: HostRuntime) {
    are_outlived(&rt, rt.alloc(), deadlocks::STORIES_OF_TWO);
    are_outlived(&rt, rt.alloc(), upgrades::STORIES_OF_TWO);
    are_outlived(&rt, rt.alloc(), memory::STORIES);
    are_outlived(&rt, rt.alloc(), places::STORIES);
}
