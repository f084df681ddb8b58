//! Sets of sessions.
ghost use Rattle.std.specs.Prelude.{◌≡◌, ◌&&◌, ◌||◌, ◌==◌, ◌<◌, ◌≤◌, ℕ, not, false, true, vec_len, OnOk};
ghost use Rattle.std.specs.List.{list_any};
ghost use Rattle.mdl_view.specs.SessionSets.{has};

use std::alloc::{AllocError, Global};

/// A set of sessions. It takes memory by the greatest number that was put in or taken out.
#[derive(Drop)]
pub(crate) struct SessionSet {
    members: Vec<bool>,
    // Whether the set has the sessions behind those.
    rest: bool,
}

impl SessionSet {
    /// Returns the empty set.
    pub(crate) fn new(alloc: Global) -> SessionSet
        ensures none { (session : ℕ) → has result session ≡ false }
        ensures rest { result.rest ≡ false }
    {
        SessionSet {
            members: Vec::new(alloc),
            rest: false,
        }
    }

    /// Returns the set of all sessions.
    pub(crate) fn all(alloc: Global) -> SessionSet
        ensures { (session : ℕ) → has result session ≡ true }
    {
        SessionSet {
            members: Vec::new(alloc),
            rest: true,
        }
    }

    /// A number from which on all sessions are in the set, or none is.
    pub(crate) fn bound(&self) -> usize
        ensures { (session : ℕ) → result ≤ session → has self.now session ≡ self.now.rest }
    {
        self.members.as_slice().len()
    }

    /// Whether the set has a session.
    pub(crate) fn contains(&self, session: usize) -> bool
        ensures { result ≡ has self.now session }
    {
        if session < self.members.len() {
            self.members[session]
        } else {
            self.rest
        }
    }

    /// Puts a session into the set.
    pub(crate) fn insert(&mut self, session: usize) -> Result<(), AllocError>
        ensures put { OnOk result ((other : ℕ) → has self.new other ≡ (has self.old other || other == session)) }
        ensures rest { self.new.rest ≡ self.old.rest }
    {
        self.extend_to(session)?;
        self.members[session] = true;
        Ok(())
    }

    /// Takes a session out of the set.
    pub(crate) fn remove(&mut self, session: usize) -> Result<(), AllocError>
        ensures removed { OnOk result ((other : ℕ) → has self.new other ≡ (has self.old other && not (other == session))) }
        ensures rest { self.new.rest ≡ self.old.rest }
    {
        self.extend_to(session)?;
        self.members[session] = false;
        Ok(())
    }

    /// Puts these sessions into the set.
    pub(crate) fn insert_all(&mut self, sessions: &[usize]) -> Result<(), AllocError>
        ensures put { OnOk result ((other : ℕ) → has self.new other ≡ (has self.old other || list_any (λ session. other == session) sessions.now)) }
        ensures rest { self.new.rest ≡ self.old.rest }
    {
        for session in sessions {
            self.insert(*session)?;
        }
        Ok(())
    }

    /// Puts in the sessions of another set, which ends somewhere.
    pub(crate) fn insert_set(&mut self, other: &SessionSet) -> Result<(), AllocError>
        requires { other.now.rest ≡ false }
        ensures { OnOk result ((session : ℕ) → has self.new session ≡ (has self.old session || has other.now session)) }
    {
        for session in 0..other.bound() {
            self.insert_if(other.contains(session), session)?;
        }
        Ok(())
    }

    // Puts a session into the set, if it is to be in it.
    fn insert_if(&mut self, member: bool, session: usize) -> Result<(), AllocError>
        ensures { OnOk result ((other : ℕ) → has self.new other ≡ (has self.old other || (member && other == session))) }
    {
        if member {
            self.insert(session)?;
        }
        Ok(())
    }

    // Makes room for a session. The set stays the same.
    fn extend_to(&mut self, session: usize) -> Result<(), AllocError>
        ensures same { (other : ℕ) → has self.new other ≡ has self.old other }
        ensures rest { self.new.rest ≡ self.old.rest }
        ensures room { OnOk result (session < vec_len self.new.members) }
    {
        while self.members.len() <= session {
            self.members.push(self.rest)?;
        }
        Ok(())
    }
}
