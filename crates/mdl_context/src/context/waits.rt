//! Waits of a session.
ghost use Rattle.std.specs.Prelude.{◌≡◌, true, Some, None, is_some, Ok, Err, OnErr};
ghost use Rattle.std.specs.Option.{IfSome};
ghost use Rattle.mdl_calls.specs.Words.{Runs};
ghost use Rattle.mdl_context.specs.Contexts.{Attends, HasSettledWait, IsAwaited, LeavesOthers};
ghost use Rattle.mdl_context.specs.Holdings.{awaited_upgrade};
ghost use Rattle.mdl_context.specs.Outcomes.{WaitComesTo};
ghost use Rattle.mdl_context.specs.Tidying.{StaysTidy, tidied, tidying};
ghost use Rattle.mdl_context.specs.Upgrades.{FailsByMerge, FailsByMergeOrWant};
ghost use Rattle.mdl_context.specs.Waits.{without_wait, taking_up, wait_won, searching_on, is_searched, resuming, giving_up_wait, looking, ending_wait, no_wait_fault, HasLostWait, WaitsOn};

use crate::searches::{abandon, seek};
use crate::{Context, ContextError, Resume};
use mdl_space::{Ended, LockSpace, Poll, Settled, SpaceError, TicketId};

impl<S: LockSpace> Context<S> {
    /// Checks the state of the wait, and ends it once it is settled.
    ///
    /// While the wait isn't settled and its searches for deadlocks were cut off, this call continues them, as [`Context::acquire`]
    /// makes them, and gives up the wait if a search runs out of memory. If the wait was for an upgrade and is granted, the new
    /// ticket is merged into the upgraded one, whose number is returned. If the merge is refused, the new ticket is released and
    /// the first is unchanged. Otherwise the call takes no memory. A lost wait leaves all tickets unchanged, and the session gives up its
    /// pins of places where the context has nothing then.
    ///
    /// After MySQL 5.7, `MDL_context::acquire_lock` of `sql/mdl.cc`, from its wait on.
    pub fn resume(&mut self, space: &mut S) -> Result<Resume, ContextError>
        requires { Attends S.LockSpace space.old self.old }
        ensures refused { IfSome (no_wait_fault self.old) (λ fault. result ≡ Err fault) }
        ensures fails { is_some self.old.wait ≡ true → FailsByMergeOrWant (awaited_upgrade self.old.wait) result }
        ensures searched { is_searched self.old.wait ≡ Some true → FailsByMerge (awaited_upgrade self.old.wait) result }
        ensures run { Runs S.joins space.old (resuming self.old) (result, self.new) space.new }
        ensures attends { Attends S.LockSpace space.new self.new }
        ensures others { LeavesOthers S.LockSpace self.old.who space.old space.new }
        ensures who { self.new.who ≡ self.old.who }
        ensures outcome { WaitComesTo self.old (result, self.new) }
        ensures failed { OnErr result (HasLostWait self.old self.new) }
        ensures tidy { StaysTidy S.LockSpace space.old self.old space.new self.new }
        ensures wait { WaitsOn result self.new.wait }
    {
        match self.holdings.is_searched() {
            None => Err(ContextError::Space(SpaceError::NoWait)),
            Some(true) => self.look(space),
            Some(false) => match space.poll_wait(self.who).unwrap() {
                Poll::Pending => self.search_on(space),
                Poll::Settled(_) => self.end_wait(space),
            },
        }
    }

    /// Gives up the wait, unless it is settled already, and ends it. The session gives up its pins of places where the context has nothing
    /// then. Takes no memory, unless the wait was for an upgrade and is granted already. Then the tickets are merged as by
    /// [`Context::resume`].
    pub fn give_up(&mut self, space: &mut S) -> Result<Resume, ContextError>
        requires { Attends S.LockSpace space.old self.old }
        ensures refused { IfSome (no_wait_fault self.old) (λ fault. result ≡ Err fault) }
        ensures fails { is_some self.old.wait ≡ true → FailsByMerge (awaited_upgrade self.old.wait) result }
        ensures run { Runs S.joins space.old (giving_up_wait self.old) (result, self.new) space.new }
        ensures attends { Attends S.LockSpace space.new self.new }
        ensures others { LeavesOthers S.LockSpace self.old.who space.old space.new }
        ensures who { self.new.who ≡ self.old.who }
        ensures ended { self.new.wait ≡ None }
        ensures outcome { WaitComesTo self.old (result, self.new) }
        ensures failed { OnErr result (self.new ≡ without_wait self.old) }
        ensures tidy { StaysTidy S.LockSpace space.old self.old space.new self.new }
    {
        if !self.holdings.is_waiting() {
            return Err(ContextError::Space(SpaceError::NoWait));
        }
        space.settle_timeout(self.who).unwrap();
        self.end_wait(space)
    }

    // Continues the searches for deadlocks, and then checks the state of the wait.
    fn search_on(&mut self, space: &mut S) -> Result<Resume, ContextError>
        requires attends { Attends S.LockSpace space.old self.old }
        requires waits { is_some self.old.wait ≡ true }
        ensures fails { FailsByMergeOrWant (awaited_upgrade self.old.wait) result }
        ensures run { Runs S.joins space.old (searching_on self.old) (result, self.new) space.new }
        ensures attends { Attends S.LockSpace space.new self.new }
        ensures who { self.new.who ≡ self.old.who }
        ensures failed { OnErr result (HasLostWait self.old self.new) }
        ensures wait { WaitsOn result self.new.wait }
    {
        match seek(space, self.who) {
            Ok(true) => {
                self.holdings.end_searches();
                self.look(space)
            }
            Ok(false) => self.look(space),
            Err(refusal) => {
                abandon(space, self.who);
                self.holdings.drop_wait();
                self.tidy(space);
                Err(ContextError::Space(refusal))
            }
        }
    }

    // Checks the state of the wait, and ends it once it is settled.
    fn look(&mut self, space: &mut S) -> Result<Resume, ContextError>
        requires attends { Attends S.LockSpace space.old self.old }
        requires waits { is_some self.old.wait ≡ true }
        ensures fails { FailsByMerge (awaited_upgrade self.old.wait) result }
        ensures run { Runs S.joins space.old (looking self.old) (result, self.new) space.new }
        ensures attends { Attends S.LockSpace space.new self.new }
        ensures who { self.new.who ≡ self.old.who }
        ensures failed { OnErr result (self.new ≡ without_wait self.old) }
        ensures wait { WaitsOn result self.new.wait }
    {
        match space.poll_wait(self.who).unwrap() {
            Poll::Pending => Ok(Resume::Waiting),
            Poll::Settled(_) => self.end_wait(space),
        }
    }

    // Ends the wait, which is settled.
    fn end_wait(&mut self, space: &mut S) -> Result<Resume, ContextError>
        requires attends { Attends S.LockSpace space.old self.old }
        requires settled { HasSettledWait S.is_settled space.old self.old.who }
        ensures fails { FailsByMerge (awaited_upgrade self.old.wait) result }
        ensures run { Runs S.joins space.old (ending_wait self.old) (result, self.new) space.new }
        ensures attends { Attends S.LockSpace space.new self.new }
        ensures who { self.new.who ≡ self.old.who }
        ensures ended { self.new.wait ≡ None }
        ensures failed { OnErr result (self.new ≡ without_wait self.old) }
        ensures wait { WaitsOn result self.new.wait }
    {
        match space.end_wait(self.who).unwrap() {
            Ended::Granted(id) => self.win(space, id),
            Ended::Victim => Ok(self.lose(space, Settled::Victim)),
            Ended::Timeout => Ok(self.lose(space, Settled::Timeout)),
            Ended::Killed => Ok(self.lose(space, Settled::Killed)),
        }
    }

    // Ends a granted wait: keeps the ticket, or merges it into the ticket to upgrade.
    fn win(&mut self, space: &mut S, new: TicketId) -> Result<Resume, ContextError>
        requires attends { Attends S.LockSpace space.old (taking_up new self.old) }
        requires awaited { IfSome self.old.wait (IsAwaited self.old.known self.old.kept) }
        ensures fails { FailsByMerge (awaited_upgrade self.old.wait) result }
        ensures run { Runs S.joins space.old (wait_won (awaited_upgrade self.old.wait) new self.old) (result, self.new) space.new }
        ensures attends { Attends S.LockSpace space.new self.new }
        ensures who { self.new.who ≡ self.old.who }
        ensures ended { self.new.wait ≡ None }
        ensures failed { OnErr result (self.new ≡ without_wait self.old) }
        ensures wait { WaitsOn result self.new.wait }
    {
        let Some((id, mode)) = self.holdings.upgrade() else {
            self.holdings.take_up(new);
            return Ok(Resume::Acquired(new));
        };
        self.holdings.drop_wait();
        match self.merge_ticket(space, id, new, mode) {
            Ok(()) => Ok(Resume::Acquired(id)),
            Err(refusal) => Err(ContextError::Space(refusal)),
        }
    }

    // Ends a lost wait, and gives up the session's pins of places where the context has nothing left.
    fn lose(&mut self, space: &mut S, how: Settled) -> Resume
        requires { Attends S.LockSpace space.old (without_wait self.old) }
        ensures result { result ≡ Resume.Lost how }
        ensures run { Runs S.joins space.old (tidying (Ok (Resume.Lost how), without_wait self.old)) (Ok result, self.new) space.new }
        ensures attends { Attends S.LockSpace space.new self.new }
        ensures lost { self.new ≡ tidied (without_wait self.old) }
    {
        self.holdings.drop_wait();
        self.tidy(space);
        Resume::Lost(how)
    }
}
