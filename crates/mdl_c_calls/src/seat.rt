//! Who keeps a session's tickets.
ghost use Rattle.std.specs.Prelude.{◌≡◌, Some, position};
ghost use Rattle.std.specs.Option.{option_copied};
ghost use Rattle.mdl_context.specs.Contexts.{AreRising, ticket_kept};
ghost use Rattle.mdl_context.specs.Holdings.{has_ticket_number};
ghost use Rattle.mdl_c_calls.specs.Listings.{duration_at_seat, duration_in};
ghost use Rattle.mdl_c_calls.specs.Managers.{AreRisingAt};

use mdl_c_parts::UNKEPT;
use mdl_context::{Context, Kept};
use mdl_key::Duration;
use mdl_space::{CoreSpace, TicketId};

/// Who keeps a session's tickets.
#[derive(Drop)]
pub enum Seat {
    /// The C program, by their numbers.
    Direct,
    /// A context, by their durations.
    Kept(Context<CoreSpace>),
}

impl Seat {
    /// Returns how long the ticket of a number is kept, as a number.
    pub(crate) fn duration_of(&self, id: TicketId) -> u8
        requires { AreRisingAt self.now }
        ensures { result ≡ duration_at_seat id (Some self.now) }
    {
        let Seat::Kept(context) = self else {
            return UNKEPT;
        };
        match duration_in(context, id) {
            Some(duration) => duration as u8,
            None => UNKEPT,
        }
    }
}

// How long a context keeps the ticket of a number: one that it has, or else the one that it waits for.
fn duration_in(context: &Context<CoreSpace>, id: TicketId) -> Option<Duration>
    requires { AreRising context.now.kept }
    ensures { result ≡ duration_in id context.now }
{
    match numbered(context.kept(), id) {
        Some(ticket) => Some(ticket.duration),
        None => context.wish().map(|wanted| wanted.duration),
    }
}

// The ticket with a number, among tickets whose numbers rise.
fn numbered(tickets: &[Kept], id: TicketId) -> Option<&Kept>
    requires { AreRising tickets.now }
    ensures { option_copied result ≡ ticket_kept id tickets.now }
{
    let at = index_of(tickets, id)?;
    Some(&tickets[at])
}

// The index of the ticket with a number, among tickets whose numbers rise.
fn index_of(tickets: &[Kept], id: TicketId) -> Option<usize>
    requires { AreRising tickets.now }
    ensures { result ≡ position (has_ticket_number id) tickets.now }
{
    tickets.binary_search_by_key(&id, |ticket| ticket.id).ok()
}
