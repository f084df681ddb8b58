//! Makes room for tickets in advance.
ghost use Rattle.std.specs.Prelude.{◌≡◌, IfErr, OnOk};
ghost use Rattle.mdl_calls.specs.declared.space_error.SpaceError.TheVariants.{OutOfMemory};
ghost use Rattle.mdl_shared.specs.SessionViews.{StaysSame};
ghost use Rattle.mdl_shared.specs.TicketLists.{HasRoomFor};

use crate::Session;
use mdl_calls::SpaceError;

impl<R> Session<R> {
    /// Makes room for `count` more tickets, at any places. The session's own list takes no memory for the next `count` tickets that it gets.
    /// A fast ticket takes no other memory.
    pub fn reserve_tickets(&mut self, count: usize) -> Result<(), SpaceError>
        ensures same { StaysSame self.old self.new }
        ensures room { OnOk result (HasRoomFor count self.old.table.slots self.new.room) }
        ensures refused { IfErr result (λ why. (why ≡ OutOfMemory) × (HasRoomFor count self.old.table.slots self.old.room → ⊥)) }
    {
        let places = self.member.seat.slot_count();
        if self.member.tickets.reserve_many(count, places).is_err() {
            return Err(SpaceError::OutOfMemory);
        }
        Ok(())
    }
}
