//! What a transaction locks: GLOBAL and three tables.
ghost use Rattle.std.specs.Prelude.{◌≡◌, ℕ, true, IfOk};
ghost use Rattle.mdl_key.specs.KeyLookups.{is_known};
ghost use Rattle.mdl_shared.specs.SessionViews.{data_of};

use crate::failure::Failure;
use crate::seat::look_up;
use crate::table::table;
use mdl_calls::Place;
use mdl_key::Key;
use mdl_shared::Session;
use std::alloc::Global;
use std::sync::Wait;

/// The places of these locks.
#[derive(Clone, Copy)]
pub struct Places {
    pub global: Place,
    pub first: Place,
    pub second: Place,
    pub third: Place,
}

/// Looks up GLOBAL and three tables from the index `from` on, and makes room for a ticket of each.
pub fn look_all_up<R: Wait>(
    alloc: Global,
    session: &mut Session<R>,
    from: u16,
) -> Result<Places, Failure>
    ensures global { IfOk result (λ places. is_known places.global (data_of session.new).known ≡ true) }
    ensures first { IfOk result (λ places. is_known places.first (data_of session.new).known ≡ true) }
    ensures second { IfOk result (λ places. is_known places.second (data_of session.new).known ≡ true) }
    ensures third { IfOk result (λ places. is_known places.third (data_of session.new).known ≡ true) }
{
    let global = look_global_up(alloc, session)?;
    let first = look_table_up(alloc, session, from, 2)?;
    let second = look_table_up(alloc, session, from.saturating_add(1), 3)?;
    let third = look_table_up(alloc, session, from.saturating_add(2), 4)?;
    Ok(Places {
        global,
        first,
        second,
        third,
    })
}

/// Returns the place of a table. The session knows its key from then on, and all that it knew before. It has room for `tickets` more tickets.
pub fn look_table_up<R: Wait>(
    alloc: Global,
    session: &mut Session<R>,
    index: u16,
    tickets: usize,
) -> Result<Place, Failure>
    ensures known { IfOk result (λ place. is_known place (data_of session.new).known ≡ true) }
    ensures kept { (place : ℕ) → is_known place (data_of session.old).known ≡ true → is_known place (data_of session.new).known ≡ true }
{
    let key = table(alloc, index)?;
    let place = look_up(session, &key, tickets);
    drop(key);
    place
}

// Returns the place of GLOBAL. The session knows its key from then on, and has room for one more ticket.
fn look_global_up<R: Wait>(alloc: Global, session: &mut Session<R>) -> Result<Place, Failure>
    ensures known { IfOk result (λ place. is_known place (data_of session.new).known ≡ true) }
{
    let key = Key::global(alloc);
    let place = look_up(session, &key, 1);
    drop(key);
    place
}
