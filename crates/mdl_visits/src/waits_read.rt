//! A session reads the words of other sessions' waits.
ghost use Rattle.std.specs.Prelude.{◌≡◌, [], OnOk};
ghost use Rattle.mdl_steps.specs.WaitSeats.{IsSession};
ghost use Rattle.mdl_visits.specs.Searches.{AddsRead, AreRead, OnlyReadsWaits};

use mdl_graph::Member;
use mdl_steps::{TableSeat, WaitWord};
use std::alloc::AllocError;

// The greatest number that a session of a graph of waits can have.
const GREATEST_SESSION: u16 = 1024;

/// The word of a session's wait, as a step met it.
#[derive(Clone, Copy, Debug, PartialEq, Eq)]
pub struct WaitRead {
    /// The session.
    pub session: u16,
    /// The word.
    pub word: WaitWord,
}

/// Reads the words of the waits of all sessions that have one of these requests into an empty list.
pub(crate) fn read_waits(
    seat: &mut TableSeat,
    wishes: &[Member],
    words: &mut Vec<WaitRead>,
) -> Result<(), AllocError>
    requires empty { words.old.items ≡ [] }
    ensures reads { OnlyReadsWaits seat.old seat.new }
    ensures all { OnOk result (AreRead wishes.now words.new.items seat.old seat.new) }
{
    words.reserve(wishes.len())?;
    for wish in wishes {
        if wish.session <= GREATEST_SESSION && seat.has_session(wish.session) {
            add_wait(seat, wish.session, words)?;
        }
    }
    Ok(())
}

// Reads the word of a session's wait.
fn add_wait(seat: &mut TableSeat, session: u16, words: &mut Vec<WaitRead>) -> Result<(), AllocError>
    requires session { IsSession seat.old.table session }
    ensures read { OnlyReadsWaits seat.old seat.new × OnOk result (AddsRead session words.old.items words.new.items seat.old seat.new) }
{
    let word = seat.read_wait(session);
    words.push(WaitRead { session, word })?;
    Ok(())
}
