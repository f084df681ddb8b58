//! What a session has of the space, whether it is open or not.
ghost use Rattle.std.specs.Prelude.{◌≡◌, [], None};
ghost use Rattle.std.specs.Option.{ForSome};
ghost use Rattle.mdl_shared.specs.Debts.{AreOwed};
ghost use Rattle.mdl_shared.specs.Members.{IsMember, IsNewSeat};
ghost use Rattle.mdl_shared.specs.SessionViews.{lists_seen, session_at};
ghost use Rattle.mdl_shared.specs.TicketLists.{HasRoom};

use crate::tickets::Tickets;
use mdl_steps::{Ask, TableSeat};
use mdl_visits::KnownKeys;
use std::alloc::Global;

/// A session's seat at the table, and its own lists, which say the same as the seat's view.
#[derive(Drop)]
pub(crate) struct Member {
    /// The allocator that its calls use.
    pub(crate) alloc: Global,
    pub(crate) seat: TableSeat,
    /// The tickets that it has.
    pub(crate) tickets: Tickets,
    /// The keys that it looked up, and the places that it pins.
    pub(crate) known: KnownKeys,
    /// The number of its next ticket.
    pub(crate) next: u64,
    /// The ticket that it waits for, if it has a wait.
    pub(crate) asks: Option<Ask>,
    /// The number of its last wait, or 0 before the first.
    pub(crate) waits: u64,
    /// The number of sessions of the space.
    pub(crate) sessions: usize,
    ghost lawful: { ∥ IsMember (session_at seat sessions tickets.room known.pins) ∥₁ },
    ghost lists: { record { slow = tickets.slow; fast = tickets.fast; known = known.known; next = next; asks = asks; waits = waits } ≡ lists_seen seat.me.0 },
    ghost room: { ForSome asks (λ ask. HasRoom ask.place tickets.room) },
    ghost owed: { AreOwed tickets.owes seat.me.0.owes },
}

impl Member {
    /// Makes the member of a session that has nothing yet. It takes no memory.
    pub(crate) fn new(alloc: Global, seat: TableSeat, sessions: usize) -> Member
        requires new { IsNewSeat sessions seat }
        ensures made { (result.seat ≡ seat) × (result.sessions ≡ sessions) }
        ensures nothing { (result.tickets.slow ≡ []) × (result.tickets.fast ≡ []) × (result.asks ≡ None) }
        ensures unpinned { result.known.pins ≡ [] }
    {
        Member {
            alloc,
            seat,
            tickets: Tickets::new(alloc),
            known: KnownKeys::new(alloc),
            next: 1,
            asks: None,
            waits: 0,
            sessions,
        }
    }
}
