//! How a session releases tickets.
ghost use Rattle.std.specs.Prelude.{◌≡◌, true, [], None, Some, Ok, OnOk, position};
ghost use Rattle.mdl_key.specs.Refusals.{RefusesJust};
ghost use Rattle.mdl_calls.specs.Words.{Done, Release, Runs};
ghost use Rattle.mdl_context.specs.Contexts.{beyond, beyond_mark, has_number, newest_first, of_statement, of_transaction, place_known, tickets_for, without_tickets, Attends, LeavesOthers};
ghost use Rattle.mdl_context.specs.Holdings.{has_ticket_number, without_number};
ghost use Rattle.mdl_context.specs.Releases.{at_known_place, releasing_all, releasing_tickets, waiting_fault, release_fault, rollback_fault, releasing, releasing_name, rolling_back, ending_statement, ending_transaction, ending_explicit, giving_up_all};
ghost use Rattle.mdl_context.specs.declared.spare.Spare.TheVariants.{At};
ghost use Rattle.mdl_context.specs.Spares.{AreMarked};
ghost use Rattle.mdl_context.specs.Tidying.{IsTidy, LetsGo, PinsJustNeeded, is_needed, tidied, unneeded, unpinning_all};

use crate::going::Going;
use crate::releasing::{release, release_all};
use crate::spare::Spare;
use crate::tidying::{unpin, unpin_unneeded};
use crate::{Context, ContextError, Mark};
use mdl_key::{Duration, Key};
use mdl_space::{LockSpace, Place, TicketId};

// The mark of a session that has no tickets of a statement and none of a transaction.
const START: Mark = Mark {
    statement: 0,
    transaction: 0,
};

impl<S: LockSpace> Context<S> {
    /// Releases a ticket, and gives up the session's pins of places where the context has nothing left. Takes no memory.
    ///
    /// After MySQL 5.7, `MDL_context::release_lock` of `sql/mdl.cc`.
    pub fn release(&mut self, space: &mut S, id: TicketId) -> Result<(), ContextError>
        requires { Attends S.LockSpace space.old self.old }
        ensures refused { RefusesJust (release_fault id self.old) result }
        ensures run { Runs S.joins space.old (releasing id self.old) (result, self.new) space.new }
        ensures attends { Attends S.LockSpace space.new self.new }
        ensures others { LeavesOthers S.LockSpace self.old.who space.old space.new }
        ensures who { self.new.who ≡ self.old.who }
        ensures tidy { OnOk result (IsTidy self.new) }
        ensures let_go { OnOk result (LetsGo S.LockSpace space.old self.old space.new self.new) }
        ensures just { PinsJustNeeded S.LockSpace space.old self.old → PinsJustNeeded S.LockSpace space.new self.new }
    {
        let Some(at) = self.holdings.position(id) else {
            return Err(ContextError::NotHeld);
        };
        if self.holdings.is_waiting() {
            return Err(ContextError::Waiting);
        }
        self.release_at(space, at, id);
        self.tidy(space);
        Ok(())
    }

    /// Releases all tickets of a key, from the newest to the oldest, and gives up the session's pins of places where the context has
    /// nothing left. Takes no memory.
    ///
    /// After MySQL 5.7, `MDL_context::release_all_locks_for_name` of `sql/mdl.cc`.
    pub fn release_name(&mut self, space: &mut S, key: &Key) -> Result<(), ContextError>
        requires { Attends S.LockSpace space.old self.old }
        ensures refused { RefusesJust (waiting_fault self.old) result }
        ensures run { Runs S.joins space.old (releasing_name key.now self.old) (result, self.new) space.new }
        ensures attends { Attends S.LockSpace space.new self.new }
        ensures others { LeavesOthers S.LockSpace self.old.who space.old space.new }
        ensures who { self.new.who ≡ self.old.who }
        ensures tidy { OnOk result (IsTidy self.new) }
        ensures let_go { OnOk result (LetsGo S.LockSpace space.old self.old space.new self.new) }
        ensures just { PinsJustNeeded S.LockSpace space.old self.old → PinsJustNeeded S.LockSpace space.new self.new }
    {
        if self.holdings.is_waiting() {
            return Err(ContextError::Waiting);
        }
        self.release_key(space, key);
        self.tidy(space);
        Ok(())
    }

    /// Goes back to a mark: keeps the earliest tickets of the statement and of the transaction, as many of each as the mark
    /// counted, and releases the others. Explicit tickets stay. Gives up the session's pins of places where the context has nothing
    /// left. Takes no memory.
    ///
    /// Only these two numbers count. A ticket that was explicit at the mark and now ends with the transaction is counted
    /// with the others, in the order in which the session got them. So if it is an early one, a later one that the mark
    /// counted is released.
    ///
    /// A mark is stale while fewer tickets of the statement or of the transaction are kept than it counted. Then this call
    /// is refused with [`ContextError::StaleSavepoint`] and changes nothing. All other calls work as before: tickets are
    /// gained and released, an older mark may still be valid, [`Context::return_to`] accepts a stale one, and the statement
    /// and the transaction can be ended. Once that many tickets are kept again, whichever they are, the mark is valid
    /// again.
    ///
    /// After MySQL 5.7, `MDL_context::rollback_to_savepoint` of `sql/mdl.cc`.
    pub fn rollback_to(&mut self, space: &mut S, mark: Mark) -> Result<(), ContextError>
        requires { Attends S.LockSpace space.old self.old }
        ensures refused { RefusesJust (rollback_fault mark self.old) result }
        ensures run { Runs S.joins space.old (rolling_back mark self.old) (result, self.new) space.new }
        ensures attends { Attends S.LockSpace space.new self.new }
        ensures others { LeavesOthers S.LockSpace self.old.who space.old space.new }
        ensures who { self.new.who ≡ self.old.who }
        ensures tidy { OnOk result (IsTidy self.new) }
        ensures let_go { OnOk result (LetsGo S.LockSpace space.old self.old space.new self.new) }
        ensures just { PinsJustNeeded S.LockSpace space.old self.old → PinsJustNeeded S.LockSpace space.new self.new }
    {
        let stands = self.savepoint();
        if stands.statement < mark.statement || stands.transaction < mark.transaction {
            return Err(ContextError::StaleSavepoint);
        }
        if self.holdings.is_waiting() {
            return Err(ContextError::Waiting);
        }
        self.return_to(space, mark);
        Ok(())
    }

    /// Ends a statement: releases its tickets, from the newest to the oldest, and gives up the session's pins of places where the
    /// context has nothing left. Takes no memory.
    ///
    /// After MySQL 5.7, `MDL_context::release_statement_locks` of `sql/mdl.cc`.
    pub fn end_statement(&mut self, space: &mut S) -> Result<(), ContextError>
        requires { Attends S.LockSpace space.old self.old }
        ensures refused { RefusesJust (waiting_fault self.old) result }
        ensures run { Runs S.joins space.old (ending_statement self.old) (result, self.new) space.new }
        ensures attends { Attends S.LockSpace space.new self.new }
        ensures others { LeavesOthers S.LockSpace self.old.who space.old space.new }
        ensures who { self.new.who ≡ self.old.who }
        ensures tidy { OnOk result (IsTidy self.new) }
        ensures let_go { OnOk result (LetsGo S.LockSpace space.old self.old space.new self.new) }
        ensures just { PinsJustNeeded S.LockSpace space.old self.old → PinsJustNeeded S.LockSpace space.new self.new }
    {
        if self.holdings.is_waiting() {
            return Err(ContextError::Waiting);
        }
        self.finish_statement(space);
        Ok(())
    }

    /// Ends a transaction: releases the tickets of the statement, and then those of the transaction, each from the newest to
    /// the oldest. Gives up the session's pins of places where the context has nothing left. Takes no memory.
    ///
    /// After MySQL 5.7, `MDL_context::release_transactional_locks` of `sql/mdl.cc`.
    pub fn end_transaction(&mut self, space: &mut S) -> Result<(), ContextError>
        requires { Attends S.LockSpace space.old self.old }
        ensures refused { RefusesJust (waiting_fault self.old) result }
        ensures run { Runs S.joins space.old (ending_transaction self.old) (result, self.new) space.new }
        ensures attends { Attends S.LockSpace space.new self.new }
        ensures others { LeavesOthers S.LockSpace self.old.who space.old space.new }
        ensures who { self.new.who ≡ self.old.who }
        ensures tidy { OnOk result (IsTidy self.new) }
        ensures let_go { OnOk result (LetsGo S.LockSpace space.old self.old space.new self.new) }
        ensures just { PinsJustNeeded S.LockSpace space.old self.old → PinsJustNeeded S.LockSpace space.new self.new }
    {
        if self.holdings.is_waiting() {
            return Err(ContextError::Waiting);
        }
        self.finish_transaction(space);
        Ok(())
    }

    /// Releases the explicit tickets, from the newest to the oldest, keeps the others, and gives up the session's pins of places where
    /// the context has nothing left. Takes no memory.
    ///
    /// After MySQL 5.7, `MDL_context::release_explicit_locks` of `sql/mdl.cc`.
    pub fn release_explicit(&mut self, space: &mut S) -> Result<(), ContextError>
        requires { Attends S.LockSpace space.old self.old }
        ensures refused { RefusesJust (waiting_fault self.old) result }
        ensures run { Runs S.joins space.old (ending_explicit self.old) (result, self.new) space.new }
        ensures attends { Attends S.LockSpace space.new self.new }
        ensures others { LeavesOthers S.LockSpace self.old.who space.old space.new }
        ensures who { self.new.who ≡ self.old.who }
        ensures tidy { OnOk result (IsTidy self.new) }
        ensures let_go { OnOk result (LetsGo S.LockSpace space.old self.old space.new self.new) }
        ensures just { PinsJustNeeded S.LockSpace space.old self.old → PinsJustNeeded S.LockSpace space.new self.new }
    {
        if self.holdings.is_waiting() {
            return Err(ContextError::Waiting);
        }
        self.finish_duration(space, Duration::Explicit);
        Ok(())
    }

    /// As [`Context::rollback_to`], for a session that is known to have no wait. If fewer tickets of a duration are kept
    /// than the mark counted, all of them stay. Takes no memory.
    pub fn return_to(&mut self, space: &mut S, mark: Mark)
        requires attends { Attends S.LockSpace space.old self.old }
        requires idle { self.old.wait ≡ None }
        ensures run { Runs S.joins space.old (releasing_tickets (beyond_mark mark self.old.kept) self.old) (Ok tt, self.new) space.new }
        ensures attends { Attends S.LockSpace space.new self.new }
        ensures others { LeavesOthers S.LockSpace self.old.who space.old space.new }
        ensures who { self.new.who ≡ self.old.who }
        ensures tidy { IsTidy self.new }
        ensures let_go { LetsGo S.LockSpace space.old self.old space.new self.new }
        ensures just { PinsJustNeeded S.LockSpace space.old self.old → PinsJustNeeded S.LockSpace space.new self.new }
        ensures wait { self.new.wait ≡ None }
    {
        self.release_since(space, mark);
        self.tidy(space);
    }

    /// As [`Context::end_statement`], for a session that is known to have no wait. Takes no memory.
    pub fn finish_statement(&mut self, space: &mut S)
        requires attends { Attends S.LockSpace space.old self.old }
        requires idle { self.old.wait ≡ None }
        ensures run { Runs S.joins space.old (releasing_tickets (of_statement self.old.kept) self.old) (Ok tt, self.new) space.new }
        ensures attends { Attends S.LockSpace space.new self.new }
        ensures others { LeavesOthers S.LockSpace self.old.who space.old space.new }
        ensures who { self.new.who ≡ self.old.who }
        ensures tidy { IsTidy self.new }
        ensures let_go { LetsGo S.LockSpace space.old self.old space.new self.new }
        ensures just { PinsJustNeeded S.LockSpace space.old self.old → PinsJustNeeded S.LockSpace space.new self.new }
        ensures wait { self.new.wait ≡ None }
    {
        self.finish_duration(space, Duration::Statement);
    }

    /// As [`Context::end_transaction`], for a session that is known to have no wait. Takes no memory.
    pub fn finish_transaction(&mut self, space: &mut S)
        requires attends { Attends S.LockSpace space.old self.old }
        requires idle { self.old.wait ≡ None }
        ensures run { Runs S.joins space.old (releasing_tickets (of_transaction self.old.kept) self.old) (Ok tt, self.new) space.new }
        ensures attends { Attends S.LockSpace space.new self.new }
        ensures others { LeavesOthers S.LockSpace self.old.who space.old space.new }
        ensures who { self.new.who ≡ self.old.who }
        ensures tidy { IsTidy self.new }
        ensures let_go { LetsGo S.LockSpace space.old self.old space.new self.new }
        ensures just { PinsJustNeeded S.LockSpace space.old self.old → PinsJustNeeded S.LockSpace space.new self.new }
        ensures wait { self.new.wait ≡ None }
    {
        self.return_to(space, START);
    }

    /// Releases all tickets of a session that is known to have no wait: those of the statement, those of the transaction,
    /// and then the explicit ones, each from the newest to the oldest. Gives up the session's pins of all places that the context
    /// knows. Takes no memory.
    ///
    /// After MySQL 5.7, `THD::cleanup` of `sql/sql_class.cc`.
    pub fn finish_all(&mut self, space: &mut S)
        requires attends { Attends S.LockSpace space.old self.old }
        requires idle { self.old.wait ≡ None }
        ensures run { Runs S.joins space.old (giving_up_all self.old) (Ok tt, self.new) space.new }
        ensures kept { self.new.kept ≡ [] }
        ensures attends { Attends S.LockSpace space.new self.new }
        ensures others { LeavesOthers S.LockSpace self.old.who space.old space.new }
        ensures who { self.new.who ≡ self.old.who }
        ensures tidy { IsTidy self.new }
        ensures let_go { LetsGo S.LockSpace space.old self.old space.new self.new }
        ensures just { PinsJustNeeded S.LockSpace space.old self.old → PinsJustNeeded S.LockSpace space.new self.new }
        ensures wait { self.new.wait ≡ None }
    {
        self.release_since(space, START);
        self.release_beyond(space, Duration::Explicit, 0);
        self.tidy(space);
    }

    // Releases the tickets of a duration, from the newest to the oldest, and gives up the session's pins of places where the context has
    // nothing left.
    fn finish_duration(&mut self, space: &mut S, duration: Duration)
        requires attends { Attends S.LockSpace space.old self.old }
        requires idle { self.old.wait ≡ None }
        ensures run { Runs S.joins space.old (releasing_tickets (newest_first (tickets_for duration self.old.kept)) self.old) (Ok tt, self.new) space.new }
        ensures attends { Attends S.LockSpace space.new self.new }
        ensures others { LeavesOthers S.LockSpace self.old.who space.old space.new }
        ensures who { self.new.who ≡ self.old.who }
        ensures tidy { IsTidy self.new }
        ensures let_go { LetsGo S.LockSpace space.old self.old space.new self.new }
        ensures just { PinsJustNeeded S.LockSpace space.old self.old → PinsJustNeeded S.LockSpace space.new self.new }
        ensures wait { self.new.wait ≡ None }
    {
        self.release_beyond(space, duration, 0);
        self.tidy(space);
    }

    // Releases a ticket, which is at index `at`, and keeps the others.
    fn release_at(&mut self, space: &mut S, at: usize, id: TicketId)
        requires attends { Attends S.LockSpace space.old self.old }
        requires idle { self.old.wait ≡ None }
        requires held { has_number self.old.kept id ≡ true }
        requires here { position (has_ticket_number id) self.old.kept ≡ Some at }
        ensures run { S.joins space.old (Release self.old.who id) Done space.new }
        ensures kept { self.new ≡ record self.old { kept = without_number id self.old.kept } }
        ensures attends { Attends S.LockSpace space.new self.new }
    {
        release(space, self.who, id);
        self.holdings.remove(at, id);
    }

    // Releases all tickets of a key, from the newest to the oldest, and keeps the others.
    fn release_key(&mut self, space: &mut S, key: &Key)
        requires attends { Attends S.LockSpace space.old self.old }
        requires idle { self.old.wait ≡ None }
        ensures run { Runs S.joins space.old (releasing_all self.old.who (newest_first (at_known_place (place_known key.now self.old.known) self.old.kept))) tt space.new }
        ensures kept { self.new ≡ record self.old { kept = without_tickets (at_known_place (place_known key.now self.old.known) self.old.kept) self.old.kept } }
        ensures attends { Attends S.LockSpace space.new self.new }
    {
        if let Some(place) = self.holdings.place_known(key) {
            release_all(space, self.who, &mut self.holdings, &Going::At(place));
        }
    }

    // Releases the tickets beyond the counts of a mark, each duration's from the newest to the oldest, and keeps the others.
    fn release_since(&mut self, space: &mut S, mark: Mark)
        requires attends { Attends S.LockSpace space.old self.old }
        requires idle { self.old.wait ≡ None }
        ensures run { Runs S.joins space.old (releasing_all self.old.who (beyond_mark mark self.old.kept)) tt space.new }
        ensures kept { self.new ≡ record self.old { kept = without_tickets (beyond_mark mark self.old.kept) self.old.kept } }
        ensures attends { Attends S.LockSpace space.new self.new }
    {
        self.release_beyond(space, Duration::Statement, mark.statement);
        self.release_beyond(space, Duration::Transaction, mark.transaction);
    }

    // Releases the tickets of a duration after the first `most`, from the newest to the oldest, and keeps the others.
    fn release_beyond(&mut self, space: &mut S, duration: Duration, most: usize)
        requires attends { Attends S.LockSpace space.old self.old }
        requires idle { self.old.wait ≡ None }
        ensures run { Runs S.joins space.old (releasing_all self.old.who (newest_first (beyond duration most self.old.kept))) tt space.new }
        ensures kept { self.new ≡ record self.old { kept = without_tickets (beyond duration most self.old.kept) self.old.kept } }
        ensures attends { Attends S.LockSpace space.new self.new }
    {
        if let Some(first) = self.holdings.nth_for(duration, most) {
            let going = Going::From(duration, first);
            release_all(space, self.who, &mut self.holdings, &going);
        }
    }

    /// Gives up the session's pins of the known places where the context has nothing, and forgets these places. Takes no memory.
    pub(crate) fn tidy(&mut self, space: &mut S)
        requires { Attends S.LockSpace space.old self.old }
        ensures run { Runs S.joins space.old (unpinning_all self.old.who (unneeded self.old)) tt space.new }
        ensures tidied { self.new ≡ tidied self.old }
        ensures attends { Attends S.LockSpace space.new self.new }
        ensures let_go { LetsGo S.LockSpace space.old self.old space.new self.new }
    {
        match self.holdings.spare() {
            Spare::Nowhere => {}
            Spare::At(place) => self.tidy_at(space, place),
            Spare::Anywhere => self.tidy_all(space),
        }
    }

    // The same, if no known place but this one may be unneeded.
    fn tidy_at(&mut self, space: &mut S, place: Place)
        requires attends { Attends S.LockSpace space.old self.old }
        requires others { AreMarked (At place) (is_needed self.old) self.old.known }
        ensures run { Runs S.joins space.old (unpinning_all self.old.who (unneeded self.old)) tt space.new }
        ensures tidied { self.new ≡ tidied self.old }
    {
        if self.holdings.is_needed(place) {
            return;
        }
        if self.holdings.forget_spare(place) {
            unpin(space, self.who, place);
        }
    }

    // The same. All known places are looked at.
    #[inline(never)]
    fn tidy_all(&mut self, space: &mut S)
        requires attends { Attends S.LockSpace space.old self.old }
        ensures run { Runs S.joins space.old (unpinning_all self.old.who (unneeded self.old)) tt space.new }
        ensures tidied { self.new ≡ tidied self.old }
    {
        if unpin_unneeded(space, self.who, &self.holdings) {
            self.holdings.forget_unneeded();
        } else {
            self.holdings.note_tidy();
        }
    }
}
