//! The numbers of a session's tickets at one place.
ghost use Rattle.std.specs.Prelude.{◌≡◌, true, [], ◌∷◌, ◌++◌, IsTrue, OnOk};
ghost use Rattle.mdl_context.specs.Indexes.{has_space, rises, without_last, without_one};

use mdl_space::TicketId;
use std::alloc::{AllocError, Global};
use std::marker::Model;

/// The numbers of the tickets at one place, in the order in which the session got them.
#[derive(Drop)]
pub(crate) struct Numbers {
    list: Vec<TicketId>,
}

impl Model for Numbers {
    ghost use Rattle.std.specs.Vec.{vec_capacity};
    ghost use Rattle.mdl_context.specs.Indexes.{NumberList};

    ghost Value = { NumberList };

    ghost view = { λ numbers. record { items = numbers.list.items; capacity = vec_capacity numbers.list } };
}

impl Numbers {
    /// No numbers. Takes no memory.
    pub(crate) fn new(alloc: Global) -> Numbers
        ensures { result.items ≡ [] }
    {
        Numbers {
            list: Vec::new(alloc),
        }
    }

    /// The numbers, in order.
    pub(crate) fn as_slice(&self) -> &[TicketId]
        ensures { result.now ≡ self.now.items }
    {
        self.list.as_slice()
    }

    /// Whether there is room for one more.
    pub(crate) fn has_space(&self) -> bool
        ensures { result ≡ has_space self.now }
    {
        self.list.len() < self.list.capacity()
    }

    /// Makes room for one more.
    pub(crate) fn reserve_one(&mut self) -> Result<(), AllocError>
        ensures numbers { self.new.items ≡ self.old.items }
        ensures room { OnOk result (has_space self.new ≡ true) }
    {
        self.list.reserve(1)
    }

    /// Adds a number at the end. Takes no memory.
    pub(crate) fn push(&mut self, id: TicketId)
        requires { has_space self.old ≡ true }
        ensures { self.new.items ≡ self.old.items ++ id ∷ [] }
    {
        self.list.push_reserved(id);
    }

    /// Removes a number from numbers that rise. Takes no memory.
    pub(crate) fn remove(&mut self, id: TicketId)
        requires { IsTrue (rises self.old.items) }
        ensures numbers { self.new.items ≡ without_one id self.old.items }
        ensures room { has_space self.old ≡ true → has_space self.new ≡ true }
    {
        if let Some(last) = self.list.last() {
            if *last == id {
                return self.remove_last();
            }
        }
        self.search_and_remove(id);
    }

    // The same by binary search.
    fn search_and_remove(&mut self, id: TicketId)
        requires { IsTrue (rises self.old.items) }
        ensures numbers { self.new.items ≡ without_one id self.old.items }
        ensures room { has_space self.old ≡ true → has_space self.new ≡ true }
    {
        let Ok(at) = self.list.binary_search(&id) else {
            return;
        };
        self.list.remove(at);
    }

    /// Removes the last number, if there is one. Takes no memory.
    pub(crate) fn remove_last(&mut self)
        ensures numbers { self.new.items ≡ without_last self.old.items }
        ensures room { has_space self.old ≡ true → has_space self.new ≡ true }
    {
        self.list.pop();
    }
}
