//! Samples: a few tickets of a list, at most three a mode, that say as much as the whole list about who blocks whom.
//!
//! So it takes one look at each ticket, and a few looks for each request, to find which requests of a long list are blocked.
ghost use Rattle.std.specs.Prelude.{◌≡◌, ◌++◌, ◌∷◌, [], Contains, IfSome, IsTrue, OnOk, IfOk};
ghost use Rattle.mdl_view.specs.Samples.{GrowsBy, IsAlikeIn, IsApartIn, IsSample, IsSampleOf, IsShown};

use crate::lock::Lock;
use crate::lock_mode::LockMode;
use crate::ticket::Ticket;
use std::alloc::{AllocError, Global};

/// Returns a sample of these tickets.
pub(crate) fn sample_of(alloc: Global, tickets: &[Ticket]) -> Result<Vec<Ticket>, AllocError>
    ensures { IfOk result (λ few. IsSample few.items tickets.now) }
{
    let mut few = Vec::new(alloc);
    for ticket in tickets {
        add_to_sample(&mut few, *ticket)?;
    }
    Ok(few)
}

/// Adds a ticket to a sample, unless the sample shows as much without it.
pub(crate) fn add_to_sample(few: &mut Vec<Ticket>, ticket: Ticket) -> Result<(), AllocError>
    ensures { OnOk result (GrowsBy ticket few.old.items few.new.items) }
{
    if !is_shown(few, ticket) {
        few.push(ticket)?;
    }
    Ok(())
}

// Whether a sample shows all that a ticket would add to it: it has one of the same mode and session, or those of three sessions in that mode.
fn is_shown(few: &[Ticket], ticket: Ticket) -> bool
    ensures { IsTrue result → IsShown few.now ticket }
{
    has_alike(few, ticket) || has_three_sessions(few, ticket)
}

// Whether there is a ticket of the same mode and session.
fn has_alike(few: &[Ticket], ticket: Ticket) -> bool
    ensures { IsTrue result → IsShown few.now ticket }
{
    let Some(_known) = alike_to(few, ticket) else {
        return false;
    };
    true
}

// The first ticket of the same mode and session.
fn alike_to(few: &[Ticket], ticket: Ticket) -> Option<Ticket>
    ensures { IfSome result (λ known. IsAlikeIn few.now ticket known) }
{
    for known in few {
        if known.mode == ticket.mode && known.session == ticket.session {
            return Some(*known);
        }
    }
    None
}

// Whether there are tickets of three sessions in the mode of this one.
fn has_three_sessions(few: &[Ticket], ticket: Ticket) -> bool
    ensures { IsTrue result → IsShown few.now ticket }
{
    let Some(first) = apart_from(few, ticket.mode, ticket.session, ticket.session) else {
        return false;
    };
    let Some(second) = apart_from(few, ticket.mode, first.session, first.session) else {
        return false;
    };
    let Some(_third) = apart_from(few, ticket.mode, first.session, second.session) else {
        return false;
    };
    true
}

// The first ticket in a mode that is of neither of two sessions.
fn apart_from(few: &[Ticket], mode: LockMode, one: usize, other: usize) -> Option<Ticket>
    ensures { IfSome result (λ ticket. IsApartIn few.now mode one other ticket) }
{
    for known in few {
        if known.mode == mode && known.session != one && known.session != other {
            return Some(*known);
        }
    }
    None
}
