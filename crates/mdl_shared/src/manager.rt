//! The space, and the passes of its sessions.
ghost use Rattle.std.specs.Prelude.{◌≡◌, ℕ, ◌+◌, ◌<◌, ◌≤◌, length, IfOk};
ghost use Rattle.std.specs.Arc.{arc_value};
ghost use Rattle.mdl_key.specs.Words.{Refuses, most_places, most_sessions};
ghost use Rattle.mdl_calls.specs.Limits.{new_fault};
ghost use Rattle.mdl_steps.specs.Layout.{word_count};
ghost use Rattle.mdl_steps.specs.Seats.{IsSized};

use crate::member::Member;
use crate::{NewError, Pass};
use mdl_key::{MOST_PLACES, MOST_SESSIONS};
use mdl_steps::{Maker, OwnedTable};
use std::alloc::{AllocError, Global};
use std::sync::Arc;

/// A lock space that threads share.
#[derive(Drop)]
pub struct Manager {
    table: Arc<OwnedTable, Global>,
}

impl Manager {
    ghost use Rattle.mdl_shared.specs.Passes.{ArePasses, IsNewSpace};

    /// Makes a space with `places` places and `sessions` sessions, which have nothing yet. Returns it with the sessions' passes, numbered
    /// from 1 on, in order. There must be 1 to [`MOST_PLACES`] places and 1 to [`MOST_SESSIONS`] sessions: otherwise it fails with
    /// [`NewError::BadPlaces`] or [`NewError::BadSessions`].
    pub fn new(alloc: Global, places: u16, sessions: u16) -> Result<(Manager, Vec<Pass>), NewError>
        ensures made { IfOk result (λ made. IsNewSpace places sessions made.0 made.1.items) }
        ensures refused { Refuses (new_fault places sessions) NewError.OutOfMemory result }
    {
        if places == 0 || places > MOST_PLACES {
            return Err(NewError::BadPlaces);
        }
        if sessions == 0 || sessions > MOST_SESSIONS {
            return Err(NewError::BadSessions);
        }
        match Manager::of(alloc, usize::from(places), usize::from(sessions)) {
            Ok(made) => Ok(made),
            Err(AllocError) => Err(NewError::OutOfMemory),
        }
    }

    // The same for valid numbers.
    fn of(alloc: Global, places: usize, sessions: usize) -> Result<(Manager, Vec<Pass>), AllocError>
        requires places { places ≤ most_places }
        requires sessions { sessions ≤ most_sessions }
        ensures { IfOk result (λ made. IsNewSpace places sessions made.0 made.1.items) }
    {
        let (table, maker) = Maker::of_places(alloc, places, sessions)?;
        let table = Arc::new(alloc, table)?;
        let passes = Manager::enrol_all(alloc, &table, maker, sessions)?;
        Ok((Manager { table }, passes))
    }

    // A pass for each session that the table has room for.
    fn enrol_all(
        alloc: Global,
        table: &Arc<OwnedTable, Global>,
        mut maker: Maker,
        sessions: usize,
    ) -> Result<Vec<Pass>, AllocError>
        requires seated { maker.seat.table_id ≡ (arc_value table.now).shared.table_id }
        requires sized { IsSized (arc_value table.now).shared.table_id }
        requires sessions { (sessions ≡ maker.most) × ((arc_value table.now).shared.table_id.words ≡ word_count (arc_value table.now).shared.table_id.slots sessions)
            × ((arc_value table.now).shared.key ≡ sessions) }
        requires narrow { (0 < (arc_value table.now).shared.table_id.slots) × ((arc_value table.now).shared.table_id.slots ≤ 65536) }
        requires first { maker.given ≡ 0 }
        ensures { IfOk result (λ passes. (length passes.items ≡ maker.most) × ArePasses (arc_value table.now).shared.table_id passes.items) }
    {
        let mut passes = Vec::new(alloc);
        while let Some(seat) = maker.enrol(Arc::try_clone(table)?) {
            let member = Member::new(alloc, seat, sessions);
            passes.push(Pass { member })?;
        }
        Ok(passes)
    }
}
