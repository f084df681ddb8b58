//! The numbers of a session's tickets, found by place.
ghost use Rattle.std.specs.Prelude.{◌≡◌, ℕ, true, [], ◌∷◌, ◌++◌, ◌==◌, OnOk, IsTrue, if◌then◌else◌};
ghost use Rattle.mdl_context.specs.Holdings.{needs_place};
ghost use Rattle.mdl_context.specs.Indexes.{ticket_numbers, has_room_for, rises, without_last, without_one};

use crate::Wanted;
use crate::numbers::Numbers;
use mdl_space::{Place, TicketId};
use std::alloc::{AllocError, Global};
use std::marker::Model;

/// The numbers of the tickets at each place, in the order in which the session got them.
#[derive(Drop)]
pub(crate) struct ByPlace {
    lists: Vec<Numbers>,
    alloc: Global,
}

impl Model for ByPlace {
    ghost use Rattle.mdl_context.specs.Indexes.{Index};

    ghost Value = { Index };

    ghost view = { λ by_place. by_place.lists.items };
}

impl ByPlace {
    /// Creates an index without places. Takes no memory.
    pub(crate) fn new(alloc: Global) -> ByPlace
        ensures { result ≡ [] }
    {
        ByPlace {
            lists: Vec::new(alloc),
            alloc,
        }
    }

    /// The numbers at a place.
    pub(crate) fn numbers(&self, place: Place) -> &[TicketId]
        ensures { result.now ≡ ticket_numbers place self.now }
    {
        match self.lists.get(usize::from(place)) {
            Some(list) => list.as_slice(),
            None => &[],
        }
    }

    /// Whether a place has a number, or is that of the wait.
    pub(crate) fn needs(&self, wait: Option<Wanted>, place: Place) -> bool
        ensures { result ≡ needs_place self.now wait place }
    {
        !self.numbers(place).is_empty() || wait.is_some_and(|wanted| wanted.place == place)
    }

    /// Whether there is room for one more number at a place.
    pub(crate) fn has_room(&self, place: Place) -> bool
        ensures { result ≡ has_room_for place self.now }
    {
        match self.lists.get(usize::from(place)) {
            Some(list) => list.has_space(),
            None => false,
        }
    }

    /// Makes room for one more number at a place.
    pub(crate) fn reserve(&mut self, place: Place) -> Result<(), AllocError>
        ensures room { OnOk result (has_room_for place self.new ≡ true) }
        ensures numbers { (q : ℕ) → ticket_numbers q self.new ≡ ticket_numbers q self.old }
    {
        let at = usize::from(place);
        list_up_to(&mut self.lists, place, self.alloc)?;
        match self.lists.get_mut(at) {
            Some(list) => list.reserve_one(),
            None => Err(AllocError),
        }
    }

    /// Adds a number after those at a place. Takes no memory.
    pub(crate) fn push(&mut self, place: Place, id: TicketId)
        requires { has_room_for place self.old ≡ true }
        ensures { (q : ℕ) → ticket_numbers q self.new ≡ (if place == q then ticket_numbers place self.old ++ id ∷ [] else ticket_numbers q self.old) }
    {
        if let Some(list) = self.lists.get_mut(usize::from(place)) {
            list.push(id);
        }
    }

    /// Removes a number from those at a place. Takes no memory.
    pub(crate) fn remove(&mut self, place: Place, id: TicketId)
        requires { IsTrue (rises (ticket_numbers place self.old)) }
        ensures numbers { (q : ℕ) → ticket_numbers q self.new ≡ (if place == q then without_one id (ticket_numbers place self.old) else ticket_numbers q self.old) }
        ensures stays { (q : ℕ) → has_room_for q self.old ≡ true → has_room_for q self.new ≡ true }
    {
        if let Some(list) = self.lists.get_mut(usize::from(place)) {
            list.remove(id);
        }
    }

    /// Removes the last number at a place, if there is one. Takes no memory.
    pub(crate) fn remove_last(&mut self, place: Place)
        ensures numbers { (q : ℕ) → ticket_numbers q self.new ≡ (if place == q then without_last (ticket_numbers place self.old) else ticket_numbers q self.old) }
        ensures stays { (q : ℕ) → has_room_for q self.old ≡ true → has_room_for q self.new ≡ true }
    {
        if let Some(list) = self.lists.get_mut(usize::from(place)) {
            list.remove_last();
        }
    }
}

// Adds empty lists until this place has one.
fn list_up_to(lists: &mut Vec<Numbers>, place: Place, alloc: Global) -> Result<(), AllocError>
    ensures { (q : ℕ) → ticket_numbers q lists.new.items ≡ ticket_numbers q lists.old.items }
{
    for _list in lists.len()..usize::from(place) + 1 {
        if lists.push(Numbers::new(alloc)).is_err() {
            return Err(AllocError);
        }
    }
    Ok(())
}
