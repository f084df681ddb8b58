//! Lists of locks.
ghost use Rattle.std.specs.Prelude.{◌≡◌, [], length, position, slice_get, IfOk};
ghost use Rattle.std.specs.Option.{option_map};
ghost use Rattle.mdl_key.specs.Keys.{key_eq};
ghost use Rattle.mdl_rows.specs.KeyOrder.{locked_ticket};
ghost use Rattle.mdl_stmt.specs.LockLists.{with_next_ticket};

use mdl_key::Key;
use mdl_space::TicketId;
use mdl_syntax::TableLocks;
use std::alloc::{AllocError, Global};
use std::marker::Model;

/// Locks that are requested one after the other.
#[derive(Drop)]
pub struct LockList {
    keys: Vec<Key>,
    tickets: Vec<TicketId>,
}

impl Model for LockList {
    ghost use Rattle.std.specs.Prelude.{◌≤◌};
    ghost use Rattle.std.specs.Vec.{vec_len, vec_capacity};
    ghost use Rattle.mdl_stmt.specs.LockLists.{LockList};

    ghost Value = { LockList };

    ghost view = { λ locks. record { keys = locks.keys.items; tickets = locks.tickets.items } };

    ghost invariant = { λ locks. vec_len locks.keys ≤ vec_capacity locks.tickets };
}

impl LockList {
    /// Creates the list of these keys' locks, none of which is held yet.
    pub fn new(alloc: Global, keys: Vec<Key>) -> Result<LockList, AllocError>
        ensures { IfOk result (λ locks. locks ≡ record { keys = keys.items; tickets = [] }) }
    {
        let mut tickets = Vec::new(alloc);
        tickets.reserve(keys.len())?;
        Ok(LockList { keys, tickets })
    }

    /// The key of the next lock, if one is left.
    pub fn next(&self) -> Option<&Key>
        ensures { option_map (λ key. key.now) result ≡ slice_get self.now.keys (length self.now.tickets) }
    {
        self.keys.get(self.tickets.len())
    }

    /// The list with the ticket of the next lock, if one is left.
    pub fn with(mut self, ticket: TicketId) -> LockList
        ensures { result ≡ with_next_ticket ticket self }
    {
        if self.tickets.len() < self.keys.len() {
            self.tickets.push(ticket).unwrap();
        }
        self
    }

    /// The ticket of a key, or 0, which is no ticket, if it has none.
    pub fn ticket_of(&self, key: &Key) -> TicketId
        ensures { result ≡ locked_ticket key.now self.now.keys self.now.tickets }
    {
        let Some(at) = index_of(&self.keys, key) else {
            return 0;
        };
        match self.tickets.get(at) {
            Some(ticket) => *ticket,
            None => 0,
        }
    }

    /// The keys.
    pub fn keys(&self) -> &[Key]
        ensures { result.now ≡ self.now.keys }
    {
        &self.keys
    }

    /// The tickets.
    pub fn tickets(&self) -> &[TicketId]
        ensures { result.now ≡ self.now.tickets }
    {
        &self.tickets
    }

    /// Returns the tickets, without the keys.
    pub fn into_tickets(self) -> Vec<TicketId>
        ensures { result.items ≡ self.tickets }
    {
        self.tickets
    }
}

/// What the locks of a list are for.
#[derive(Clone, Copy)]
pub enum Locking<'s> {
    /// A change of definitions.
    Ddl,
    /// LOCK TABLES of these tables.
    Tables(&'s TableLocks),
}

// The index of a key.
fn index_of(keys: &[Key], key: &Key) -> Option<usize>
    ensures { result ≡ position (key_eq key.now) keys.now }
{
    keys.iter().position(|other| key == other)
}
