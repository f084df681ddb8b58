//! Cycles of sessions that wait for one another.
ghost use Rattle.std.specs.Prelude.{◌≡◌, ◌≤◌, length};
ghost use Rattle.mdl_graph.specs.Victims.{victim_of, falls_before};

use std::marker::Model;

/// A session of a cycle.
#[derive(Clone, Copy, Debug, PartialEq, Eq)]
pub struct Member {
    /// The session, numbered from 1.
    pub session: u16,
    /// The weight of its request, as [`mdl_key::weight`] returns it.
    pub weight: u8,
}

/// Sessions, each of which waits for the next, and the last for the first. There are at least two.
#[derive(Drop)]
pub struct Cycle {
    members: Vec<Member>,
}

impl Model for Cycle {
    ghost use Rattle.std.specs.Prelude.{List, length, ◌≤◌};
    ghost use Rattle.mdl_graph.specs.declared.cycle.Member.{Member};

    ghost Value = { List Member };

    ghost view = { λ cycle. cycle.members.items };

    ghost invariant = { λ cycle. 2 ≤ length cycle.members.items };
}

impl Cycle {
    /// Creates a cycle of these members.
    pub(crate) fn new(members: Vec<Member>) -> Cycle
        requires { 2 ≤ length members.items }
        ensures { result ≡ members.items }
    {
        Cycle { members }
    }

    /// Returns the members, beginning with the session that was asked for.
    pub fn members(&self) -> &[Member]
        ensures members { result.now ≡ self.now }
        ensures many { 2 ≤ length result.now }
    {
        &self.members
    }
}

/// Returns the session of the member that has to give up its wait: that of the least weight, and of equal weights the one
/// of the greatest number. It takes no memory.
///
/// After MySQL 5.7, `Deadlock_detection_visitor` of `sql/mdl.cc`.
pub fn victim(cycle: &Cycle) -> u16
    ensures { result ≡ victim_of cycle.now }
{
    let members = cycle.members();
    let mut weakest = members[0];
    for &member in &members[1..] {
        if !weakest.falls_before(member) {
            weakest = member;
        }
    }
    weakest.session
}

impl Member {
    // Whether this member is the victim rather than another one.
    fn falls_before(self, other: Member) -> bool
        ensures { result ≡ falls_before self other }
    {
        self.weight < other.weight || (self.weight == other.weight && other.session <= self.session)
    }
}
