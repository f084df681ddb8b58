//! Whom a host has to wake: each session once for each wait. The manager doesn't change; the host keeps the numbers of the waits that it was told.
ghost use Rattle.std.specs.Prelude.{◌≡◌, ◌≤◌, length, slice_set};
ghost use Rattle.std.specs.Option.{option_map};
ghost use Rattle.mdl_core.specs.Words.{SpeaksFor, seat_at};
ghost use Rattle.mdl_core.specs.declared.pending.Pending.{Pending};
ghost use Rattle.mdl_c_parts.specs.Rows.{IsListWritten};
ghost use Rattle.mdl_c_calls.specs.Listings.{IsNoted, is_newly_settled, newly_settled, noted, settled_number, told_number};

use super::ServedSpace;
use super::lists::write_at;
use mdl_space::{CoreSpace, LockSpace};

impl ServedSpace {
    /// Writes the sessions whose waits are newly settled, in rising order: as many as there is room for. Returns how many there are. If there is room for
    /// all of them, the numbers of their waits are told then.
    pub fn tell_woken(&mut self, told: &mut [u64], room: &mut [u16]) -> usize
        ensures told { IsListWritten (newly_settled self.old told.old) room.old room.new result }
        ensures noted { IsNoted self.old told.old told.new (length room.old) }
        ensures unchanged { self.new ≡ self.old }
    {
        if self.settled_waits() == 0 {
            return 0;
        }
        let count = self.write_woken(told, room);
        if count <= room.len() {
            self.note_settled(told);
        }
        count
    }

    fn write_woken(&mut self, told: &[u64], room: &mut [u16]) -> usize
        ensures told { IsListWritten (newly_settled self.old told.now) room.old room.new result }
        ensures unchanged { self.new ≡ self.old }
    {
        let sessions = self.session_count();
        let mut count = 0;
        for index in 0..sessions {
            if self.is_newly_settled(index + 1, told) {
                write_at(room, count, index + 1);
                count += 1;
            }
        }
        count
    }

    // Writes the number of each settled wait to the entry of its session, if there is one.
    fn note_settled(&mut self, told: &mut [u64])
        ensures noted { told.new ≡ noted self.old told.old }
        ensures unchanged { self.new ≡ self.old }
    {
        let sessions = self.session_count();
        for index in 0..sessions {
            if let Some(number) = self.settled_number(index + 1) {
                note_at(told, index, number);
            }
        }
    }

    fn is_newly_settled(&mut self, who: u16, told: &[u64]) -> bool
        ensures told { result ≡ is_newly_settled self.old told.now who }
        ensures unchanged { self.new ≡ self.old }
    {
        match self.settled_number(who) {
            Some(number) => number != told_number(told, who),
            None => false,
        }
    }

    // The number of a session's settled wait, if it has one.
    fn settled_number(&mut self, who: u16) -> Option<u64>
        ensures told { result ≡ settled_number who self.old }
        ensures unchanged { self.new ≡ self.old }
    {
        if !self.has_settled_wait(who) {
            return None;
        }
        wait_number(&mut self.space, who)
    }
}

// Writes a number at an index of those that are told, if there is such an index.
#[tactic(auto, using(crate::proofs::SettledLemmas::left_past))]
fn note_at(told: &mut [u64], index: u16, number: u64)
    ensures { told.new ≡ slice_set told.old index number }
{
    if usize::from(index) < told.len() {
        told[usize::from(index)] = number;
    }
}

// The number that was told of a session last.
fn told_number(told: &[u64], who: u16) -> u64
    requires { 1 ≤ who }
    ensures { result ≡ told_number who told.now }
{
    told.get(usize::from(who) - 1).copied().unwrap_or(0)
}

// The number of a session's wait, if it has one. It changes nothing: only the type of `wait_of` requires `&mut`.
fn wait_number(space: &mut CoreSpace, who: u16) -> Option<u64>
    requires { SpeaksFor space.old who }
    ensures told { result ≡ option_map (λ (wait : Pending). wait.number) (seat_at who space.old).wait }
    ensures unchanged { space.new ≡ space.old }
{
    space.wait_of(who)
}
