//! Ten thousand random calls, after each of which the contexts keep what the plain program does. At the end of each hall, their sessions pin the
//! same places.
use crate::by_chance::chance::Chance;
use crate::by_chance::pins::are_pinned_alike;
use crate::by_chance::plain::{NOTHING_SEEN, Plain, Seen};
use crate::contexts::acts::Act;
use crate::hall::{Hall, SESSIONS};
use std::alloc::Global;

// Fewer than the nine locks that there are, so that places are given anew. A context finds few known keys in another way than many.
const FEW_PLACES: u16 = 4;

const MANY_PLACES: u16 = 7;

// The plain program that contexts are compared with, and the source of random calls.
#[derive(Drop)]
struct Trial {
    plain: Plain,
    chance: Chance,
}

// Draws the number of a call. A session that waits mostly gets a call for its wait.
fn draw_call(trial: &mut Trial, who: u16) -> u16 {
    if trial.plain.wait(who).is_some() {
        match trial.chance.draw(8) {
            0..=3 => return 60,
            4 => return 61,
            _ => {}
        }
    }
    trial.chance.draw(64)
}

// Draws a call.
fn draw_act(trial: &mut Trial, who: u16) -> Act {
    match draw_call(trial, who) {
        0..=33 => trial.chance.draw_acquire(),
        34..=42 => Act::Release(trial.chance.draw_id(&trial.plain, who)),
        43..=45 => Act::ReleaseName(trial.chance.draw_any_lock()),
        46..=49 => {
            let stands = trial.plain.mark_of(who);
            let statement = trial.chance.draw_up_to(stands.statement);
            Act::GoBack(statement, trial.chance.draw_up_to(stands.transaction))
        }
        50..=54 => Act::EndStatement,
        55..=57 => Act::EndTransaction,
        58 => Act::MakeExplicit,
        59 => Act::MakeTransactional,
        60 => Act::Resume,
        61 => Act::GiveUp,
        _ => {
            let (target, number) = trial.chance.draw_kill(&trial.plain);
            Act::Kill(target, number)
        }
    }
}

// A random context makes a random call. Whether it answers as the plain program does, and then all sessions hold the same.
fn acts_alike(hall: &mut Hall, trial: &mut Trial) -> bool {
    let who = trial.chance.draw(SESSIONS) + 1;
    let act = draw_act(trial, who);
    let wanted = trial.plain.make(who, act);
    wanted.is_some() && hall.make(who, act) == wanted && hall.stands_as(&trial.plain)
}

// Whether the calls led often enough to waits that were granted, given up, killed and lost by victims, to stale marks, to tickets that were reused and
// cloned, to places that contexts let go after each kind of call, to sessions that pinned many, to places that were given anew, and to locks that got none.
fn are_met(seen: Seen) -> bool {
    seen.granted >= 100
        && seen.timed_out >= 100
        && seen.killed >= 20
        && seen.victims >= 20
        && seen.stale >= 20
        && seen.reused >= 100
        && seen.cloned >= 100
        && seen.let_go >= 500
        && seen.let_go_refused >= 100
        && seen.let_go_untaken >= 100
        && seen.let_go_lost >= 100
        && seen.pinned_many >= 100
        && seen.given_anew >= 100
        && seen.no_place >= 100
}

// The number of halls, one after another, and of calls in each.
const HALLS: u64 = 20;

const CALLS: u32 = 500;

// Returns the index of the first call after which contexts and the plain program differ, in the answer or in what sessions hold. It is the index
// after the last call if sessions pin other places then.
fn first_apart(hall: Hall, trial: &mut Trial) -> Option<u32> {
    let mut hall = hall;
    for call in 0..CALLS {
        if !acts_alike(&mut hall, trial) {
            drop(hall);
            return Some(call);
        }
    }
    let mut room = hall.into_room();
    let are_alike = are_pinned_alike(&mut room, &mut trial.plain);
    drop(room);
    if are_alike { None } else { Some(CALLS) }
}

// Plays in a new hall, beside a new plain program. Returns what was seen in all halls so far, unless contexts and the plain program differ.
fn seen_in_new_hall(alloc: Global, seed: u64, seen: Seen) -> Option<Seen> {
    let places = if seed % 3 == 0 {
        MANY_PLACES
    } else {
        FEW_PLACES
    };
    let Ok(hall) = Hall::new(alloc, places) else {
        return None;
    };
    let mut trial = Trial {
        plain: Plain::new(alloc, usize::from(places), seen),
        chance: Chance(seed),
    };
    let apart = first_apart(hall, &mut trial);
    let seen = trial.plain.seen;
    drop(trial);
    match apart {
        None => Some(seen),
        Some(_) => None,
    }
}

// Returns what was seen in all halls, unless contexts and the plain program differ.
fn seen_in_halls(alloc: Global) -> Option<Seen> {
    let mut seen = NOTHING_SEEN;
    for seed in 0..HALLS {
        seen = seen_in_new_hall(alloc, seed, seen)?;
    }
    Some(seen)
}

#[test]
fn contexts_stand_where_the_plain_ones_do(rt: HostRuntime) {
    let Some(seen) = seen_in_halls(rt.alloc()) else {
        panic!(rt; "contexts and the plain ones differ");
    };
    assert!(rt; are_met(seen));
}
