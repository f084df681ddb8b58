//! The tracks of what is held, in the rows of sessions.
ghost use Rattle.std.specs.Prelude.{◌≡◌, IfOk, OnOk};
ghost use Rattle.mdl_picture.specs.Holds.{behind_session, behind_track, is_beside, placed_of, track_count, track_for};

use crate::holds::{Hold, goes_on, session_of};
use crate::sums::sum;
use std::alloc::{AllocError, Global};
use std::marker::Model;

/// A bar in a track of its session's row.
#[derive(Drop)]
pub(crate) struct Placed<'b, 'a> {
    /// The bar.
    pub(crate) hold: &'b Hold<'a>,
    /// The track, counted from 0.
    pub(crate) track: u64,
}

impl<'b, 'a> Model for Placed<'b, 'a> {
    ghost use Rattle.mdl_picture.specs.Holds.{Placed};

    ghost Value = { Placed };

    ghost view = { λ placed. record { hold = placed.hold.now; track = placed.track } };
}

/// Returns bars, each in its track.
pub(crate) fn placed_of<'b, 'a>(
    alloc: Global,
    holds: &'b [Hold<'a>],
) -> Result<Vec<Placed<'b, 'a>>, AllocError>
    ensures { IfOk result (λ placed. placed.items ≡ placed_of holds.now) }
{
    let mut placed = Vec::new(alloc);
    for hold in holds {
        let track = track_for(&placed, hold)?;
        placed.push(Placed { hold, track })?;
    }
    Ok(placed)
}

// The track of a bar: behind those of the bars of its session that aren't over.
fn track_for(placed: &[Placed<'_, '_>], hold: &Hold<'_>) -> Result<u64, AllocError>
    ensures { IfOk result (λ track. track ≡ track_for placed.now hold.now) }
{
    let mut track = 0;
    for other in placed {
        track = behind_track(hold, track, other)?;
    }
    Ok(track)
}

// The track behind that of another bar too, if that one isn't over.
fn behind_track(hold: &Hold<'_>, track: u64, other: &Placed<'_, '_>) -> Result<u64, AllocError>
    ensures { IfOk result (λ behind. behind ≡ behind_track hold.now track other.now) }
{
    if is_beside(hold, other) {
        return Ok(track.max(sum(other.track, 1)?));
    }
    Ok(track)
}

// Whether another bar of the session isn't over where a bar begins.
fn is_beside(hold: &Hold<'_>, other: &Placed<'_, '_>) -> bool
    ensures { result ≡ is_beside hold.now other.now }
{
    let beside = other.hold;
    session_of(beside) == session_of(hold) && goes_on(hold.x, beside)
}

/// Returns how many tracks the row of a session has.
pub(crate) fn track_count(placed: &[Placed<'_, '_>], session: u16) -> Result<u64, AllocError>
    ensures { IfOk result (λ tracks. tracks ≡ track_count placed.now session) }
{
    let mut tracks = 0;
    for one in placed {
        tracks = behind_session(session, tracks, one)?;
    }
    Ok(tracks)
}

// The number of tracks with that of a bar, if it is in the row of this session.
fn behind_session(session: u16, tracks: u64, placed: &Placed<'_, '_>) -> Result<u64, AllocError>
    ensures { IfOk result (λ behind. behind ≡ behind_session session tracks placed.now) }
{
    if session_of(placed.hold) == session {
        return Ok(tracks.max(sum(placed.track, 1)?));
    }
    Ok(tracks)
}
