//! Trials of a room that take more than rows of calls.
use crate::base::rows::{Row, are_right};
use crate::room::Room;
use crate::{books, full, limits, tables};
use std::alloc::Global;

/// What is tried in a room.
#[derive(Clone, Copy)]
enum Trial {
    // The books list who holds and who waits.
    Books,
    // The tables of a schema are told.
    Tables,
    // Keys keep their places while these are pinned.
    Places,
    // A definition has a last version.
    Versions,
    // A lock is full.
    FullLock,
}

impl Trial {
    // Creates a room for the trial.
    fn room(self, alloc: Global) -> Option<Room> {
        match self {
            Trial::Tables => Room::of_keys(alloc, tables::KEYS, 2),
            _ => Room::new(alloc),
        }
    }

    // Whether the trial succeeds in this room.
    fn succeeds(self, room: &mut Room) -> bool {
        match self {
            Trial::Books => books::list_what_stands(room),
            Trial::Tables => tables::tells_what_is_defined(room),
            Trial::Places => limits::keeps_places(room),
            Trial::Versions => limits::has_versions_up_to_the_last(room),
            Trial::FullLock => full::is_full_at_last(room),
        }
    }
}

// Whether the trial succeeds in a new room.
impl Row for Trial {
    fn goes_so(&self, alloc: Global) -> bool {
        let Some(mut room) = self.room(alloc) else {
            return false;
        };
        let succeeds = self.succeeds(&mut room);
        drop(room);
        succeeds
    }
}

const TRIALS: &[Trial] = &[
    Trial::Books,
    Trial::Tables,
    Trial::Places,
    Trial::Versions,
    Trial::FullLock,
];

#[test]
fn a_space_stands_its_trials(rt: HostRuntime) {
    are_right(&rt, rt.alloc(), TRIALS);
}
