//! Twenty thousand random calls of spaces, after each of which the sessions hold what those of the plain program do.
use crate::by_chance::chance::Chance;
use crate::by_chance::pins::are_pinned_alike;
use crate::by_chance::plain::spaces::Call;
use crate::by_chance::plain::{NOTHING_SEEN, Plain, Seen};
use crate::contexts::acts::Lock;
use crate::hall::SESSIONS;
use crate::room::Room;
use mdl_key::Mode;
use std::alloc::Global;

// Fewer than there are locks, so that places are given anew.
const PLACES: u16 = 4;

// Draws a lock whose place the session looks up. One that had a definition is drawn less often, so that there are times when nobody pins its place.
fn draw_sought(chance: &mut Chance, plain: &Plain) -> Lock {
    let lock = chance.draw_any_lock();
    if plain.is_kept(lock) {
        chance.draw_any_lock()
    } else {
        lock
    }
}

// Draws a lock whose place the session pins, or at times another one.
fn draw_pinned(chance: &mut Chance, plain: &Plain, who: u16) -> Lock {
    let mut lock = chance.draw_any_lock();
    for _more in 0..5 {
        if plain.pins(who, lock) {
            return lock;
        }
        lock = chance.draw_any_lock();
    }
    lock
}

// Draws a change under a ticket: under X of table B if the session has that, so that few other places are kept by definitions.
fn draw_change(chance: &mut Chance, plain: &Plain, who: u16) -> Call {
    match plain.exclusive(who, Lock::B) {
        Some(id) => Call::Redefine(id),
        None => Call::Redefine(chance.draw_id(plain, who)),
    }
}

// Draws a mode to request a lock in. Definitions are only changed under X.
fn draw_mode(chance: &mut Chance, lock: Lock) -> Mode {
    if chance.draw(8) == 0 {
        return Mode::X;
    }
    chance.draw_mode(lock.kind())
}

// Draws a call. A session that waits mostly gets a call for its wait.
fn draw_call(chance: &mut Chance, plain: &Plain, who: u16) -> Call {
    let drawn = if plain.wait(who).is_some() && chance.draw(2) == 0 {
        chance.draw(12) + 52
    } else {
        chance.draw(64)
    };
    match drawn {
        0..=8 => Call::Resolve(draw_sought(chance, plain)),
        9..=19 => Call::Unpin(draw_pinned(chance, plain, who)),
        20..=22 => {
            let lock = draw_pinned(chance, plain, who);
            Call::TryNow(lock, draw_mode(chance, lock))
        }
        23..=33 => {
            let lock = draw_pinned(chance, plain, who);
            Call::BeginWait(lock, draw_mode(chance, lock))
        }
        34..=48 => Call::Release(chance.draw_id(plain, who)),
        49..=51 => draw_change(chance, plain, who),
        52..=53 => Call::Poll,
        54..=56 => Call::Search,
        57 => Call::TimeOut,
        58..=62 => Call::EndWait,
        _ => {
            let (target, number) = chance.draw_kill(plain);
            Call::Kill(target, number)
        }
    }
}

// Whether each session holds what it has in the plain program.
fn stands_as(room: &Room, plain: &Plain) -> bool {
    for who in 1..=SESSIONS {
        let Ok(held) = room.held(who) else {
            return false;
        };
        let is_so = plain.holds(who, held.as_slice());
        drop(held);
        if !is_so {
            return false;
        }
    }
    true
}

// A random session makes a random call. Whether it is answered as in the plain program, and then all sessions hold the same.
fn acts_alike(room: &mut Room, plain: &mut Plain, chance: &mut Chance) -> bool {
    let who = chance.draw(SESSIONS) + 1;
    let call = draw_call(chance, plain, who);
    let act = plain.answered(who, call);
    room.make(who, act) == Some(true) && stands_as(room, plain)
}

// Whether the calls led often enough to pins that were given up, to places in use, to requests at places that weren't pinned, to waits that ended in
// each way, to places that were given anew, to places that were passed over for their definitions, and to locks that got no place.
fn are_met(seen: Seen) -> bool {
    seen.unpinned >= 500
        && seen.in_use >= 500
        && seen.not_pinned >= 500
        && seen.granted >= 100
        && seen.timed_out >= 100
        && seen.killed >= 20
        && seen.victims >= 20
        && seen.given_anew >= 100
        && seen.passed_over >= 100
        && seen.no_place >= 500
}

// The number of spaces, one after another, and of calls in each.
const ROOMS: u64 = 20;

const CALLS: u32 = 1_000;

// Returns the index of the first call after which the space and the plain program differ, in the answer or in what sessions hold. It is the index
// after the last call if sessions pin other places then.
fn first_apart(room: &mut Room, plain: &mut Plain, seed: u64) -> Option<u32> {
    let mut chance = Chance(seed);
    for call in 0..CALLS {
        if !acts_alike(room, plain, &mut chance) {
            return Some(call);
        }
    }
    if are_pinned_alike(room, plain) {
        None
    } else {
        Some(CALLS)
    }
}

// Plays in a new space, beside a new plain program. Returns what was seen in all spaces so far, unless the space and the plain program differ.
fn seen_in_new_room(alloc: Global, seed: u64, seen: Seen) -> Option<Seen> {
    let mut room = Room::empty(alloc, PLACES, SESSIONS)?;
    let mut plain = Plain::new(alloc, usize::from(PLACES), seen);
    let apart = first_apart(&mut room, &mut plain, seed);
    let seen = plain.seen;
    drop(plain);
    drop(room);
    match apart {
        None => Some(seen),
        Some(_) => None,
    }
}

// Returns what was seen in all spaces, unless a space and the plain program differ.
fn seen_in_rooms(alloc: Global) -> Option<Seen> {
    let mut seen = NOTHING_SEEN;
    for seed in 0..ROOMS {
        seen = seen_in_new_room(alloc, seed, seen)?;
    }
    Some(seen)
}

#[test]
fn spaces_stand_where_the_plain_ones_do(rt: HostRuntime) {
    let Some(seen) = seen_in_rooms(rt.alloc()) else {
        panic!(rt; "a space and the plain one differ");
    };
    assert!(rt; are_met(seen));
}
