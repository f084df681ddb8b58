//! Which places sessions pin: a session is told so when it gives its pins up.
use crate::acts::Act;
use crate::by_chance::plain::Plain;
use crate::hall::SESSIONS;
use crate::room::Room;

// The greatest place that is looked at. There are fewer places.
const LAST: u16 = 9;

/// Whether each session pins the places that it pins in the plain program. All pins that can be given up are given up meanwhile.
pub(crate) fn are_pinned_alike(room: &mut Room, plain: &mut Plain) -> bool {
    for who in 1..=SESSIONS {
        for place in 0..=LAST {
            let unpin = Act::Unpin(place, plain.unpin_at(who, place));
            if room.make(who, unpin) != Some(true) {
                return false;
            }
        }
    }
    true
}
