//! A session's tickets by duration.
ghost use Rattle.std.specs.Prelude.{◌≡◌, None, [], map, OnOk, OnErr};
ghost use Rattle.mdl_key.specs.declared.mode.Duration.TheVariants.{Explicit};
ghost use Rattle.mdl_key.specs.Refusals.{RefusesJust};
ghost use Rattle.mdl_context.specs.Contexts.{current_mark, waits_for_user_lock, last_ticket, holds_as_strong, Attends};
ghost use Rattle.mdl_context.specs.Holdings.{kept_for, with_duration, transactional};
ghost use Rattle.mdl_context.specs.Releases.{release_fault, waiting_fault};
ghost use Rattle.mdl_context.specs.Tidying.{StaysTidy};

use crate::holdings::Holdings;
use crate::{ContextError, Kept, Mark, Wanted};
use mdl_key::{Duration, Key, Mode};
use mdl_space::{LockSpace, TicketId};
use std::alloc::Global;
use std::marker::{Model, PhantomData};

mod acquire;
mod releases;
mod try_acquire;
mod upgrades;
mod waits;

/// A session's tickets in a lock space, by duration, and its wait.
///
/// After MySQL 5.7, `MDL_context` of `sql/mdl.h`.
#[derive(Drop)]
pub struct Context<S: LockSpace> {
    who: u16,
    holdings: Holdings,
    space: PhantomData<S>,
}

impl<S: LockSpace> Model for Context<S> {
    ghost use Rattle.mdl_context.specs.Contexts.{ContextView};
    ghost use Rattle.mdl_context.specs.Holdings.{context_of};

    ghost Value = { ContextView };

    ghost view = { λ context. context_of context.who context.holdings };
}

impl<S: LockSpace> Context<S> {
    /// Creates the context of a session that has no tickets and no wait. Takes no memory.
    pub fn new(alloc: Global, who: u16) -> Context<S>
        ensures { result ≡ record { who = who; kept = []; known = []; wait = None } }
    {
        Context {
            who,
            holdings: Holdings::new(alloc),
            space: PhantomData,
        }
    }

    /// The session whose context this is.
    pub fn who(&self) -> u16
        ensures { result ≡ self.now.who }
    {
        self.who
    }

    /// The tickets that the session holds, in the order in which it got them.
    pub fn kept(&self) -> &[Kept]
        ensures { result.now ≡ self.now.kept }
    {
        self.holdings.tickets()
    }

    /// What the session waits for, if it has a wait that it hasn't ended.
    pub fn wish(&self) -> Option<Wanted>
        ensures { result ≡ self.now.wait }
    {
        self.holdings.wait()
    }

    /// Whether the session waits for a user-level lock.
    pub fn waits_for_user_lock(&self) -> bool
        ensures { result ≡ waits_for_user_lock self.now }
    {
        let Some(wanted) = self.holdings.wait() else {
            return false;
        };
        self.holdings.is_user_lock(wanted.place)
    }

    /// The ticket of a key that the session got last, if it holds one.
    ///
    /// Finds the ticket by the key's place, without a walk over the tickets. Takes no memory, and makes no call of the
    /// space.
    pub fn last_ticket(&self, key: &Key) -> Option<TicketId>
        ensures { result ≡ last_ticket key.now self.now }
    {
        let place = self.holdings.place_known(key)?;
        self.holdings.last_at(place)
    }

    /// Whether the session has a ticket of a key in a mode at least as strong. For a mode that isn't of the key's kind it has none.
    ///
    /// Takes no memory, and makes no call of the space.
    ///
    /// After MySQL 5.7, `MDL_context::owns_equal_or_stronger_lock` of `sql/mdl.cc`.
    pub fn holds(&self, key: &Key, mode: Mode) -> bool
        ensures { result ≡ holds_as_strong key.now mode self.now }
    {
        if !key.kind().has_mode(mode) {
            return false;
        }
        match self.holdings.place_known(key) {
            Some(place) => self.holdings.has_covering(place, mode),
            None => false,
        }
    }

    /// The session's current mark: how many tickets it keeps for the statement, and how many for the transaction.
    ///
    /// The mark names no ticket, and holds nothing. It is valid as long as the session keeps at least that many of both.
    /// If some were released and others gained meanwhile, it applies to other tickets than those it counted.
    ///
    /// After MySQL 5.7, `MDL_context::mdl_savepoint` of `sql/mdl.h`.
    pub fn savepoint(&self) -> Mark
        ensures { result ≡ current_mark self.now.kept }
    {
        Mark {
            statement: self.holdings.count(Duration::Statement),
            transaction: self.holdings.count(Duration::Transaction),
        }
    }

    /// Keeps a ticket for this duration from now on, whatever its duration was. Takes no memory, and makes no call of the space.
    ///
    /// After MySQL 5.7, `MDL_context::set_lock_duration` of `sql/mdl.cc`.
    pub fn set_duration(&mut self, id: TicketId, duration: Duration) -> Result<(), ContextError>
        ensures refused { RefusesJust (release_fault id self.old) result }
        ensures done { OnOk result (self.new ≡ record self.old { kept = with_duration id duration self.old.kept }) }
        ensures unchanged { OnErr result (self.new ≡ self.old) }
        ensures who { self.new.who ≡ self.old.who }
        ensures attends { (space : S) → Attends S.LockSpace space self.old → Attends S.LockSpace space self.new }
        ensures tidy { (space : S) → StaysTidy S.LockSpace space self.old space self.new }
    {
        if !self.holdings.has(id) {
            return Err(ContextError::NotHeld);
        }
        if self.holdings.is_waiting() {
            return Err(ContextError::Waiting);
        }
        self.holdings.set_duration(id, duration);
        Ok(())
    }

    /// Makes all tickets explicit: they are kept until they are released.
    ///
    /// After MySQL 5.7, `MDL_context::set_explicit_duration_for_all_locks` of `sql/mdl.cc`.
    pub fn make_explicit(&mut self) -> Result<(), ContextError>
        ensures refused { RefusesJust (waiting_fault self.old) result }
        ensures done { OnOk result (self.new ≡ record self.old { kept = map (kept_for Explicit) self.old.kept }) }
        ensures unchanged { OnErr result (self.new ≡ self.old) }
        ensures who { self.new.who ≡ self.old.who }
        ensures attends { (space : S) → Attends S.LockSpace space self.old → Attends S.LockSpace space self.new }
        ensures tidy { (space : S) → StaysTidy S.LockSpace space self.old space self.new }
    {
        if self.holdings.is_waiting() {
            return Err(ContextError::Waiting);
        }
        self.holdings.make_explicit();
        Ok(())
    }

    /// Keeps the explicit tickets until the transaction ends, except those of user-level locks, which stay explicit.
    ///
    /// After MySQL 5.7, `MDL_context::set_transaction_duration_for_all_locks` of `sql/mdl.cc`.
    pub fn make_transactional(&mut self) -> Result<(), ContextError>
        ensures refused { RefusesJust (waiting_fault self.old) result }
        ensures done { OnOk result (self.new ≡ record self.old { kept = map (transactional self.old.known) self.old.kept }) }
        ensures unchanged { OnErr result (self.new ≡ self.old) }
        ensures who { self.new.who ≡ self.old.who }
        ensures attends { (space : S) → Attends S.LockSpace space self.old → Attends S.LockSpace space self.new }
        ensures tidy { (space : S) → StaysTidy S.LockSpace space self.old space self.new }
    {
        if self.holdings.is_waiting() {
            return Err(ContextError::Waiting);
        }
        self.holdings.make_transactional();
        Ok(())
    }
}
