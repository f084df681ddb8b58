//! Deadlocks of the plain program, found by trying all paths.
use super::Plain;
use crate::contexts::acts::Lock;
use mdl_key::Mode;
use mdl_space::Settled;

// Distinct sessions, each of which waits for the one before it in this list. The session that the path begins with is last, and also fills the unused places.
type Path = [u16; 5];

// More paths than there are.
const MOST_PATHS: usize = 100;

impl Plain {
    // Settles the waits of victims until the session is in no deadlock.
    pub(super) fn end_deadlocks(&mut self, who: u16) {
        for _search in 0..self.seats.len() {
            if self.end_deadlock(who).is_none() {
                return;
            }
        }
    }

    // Settles the wait of the victim of a deadlock that the session is in, and returns the victim. There is none if it is in no deadlock.
    pub(super) fn end_deadlock(&mut self, who: u16) -> Option<u16> {
        let mut paths = Vec::new(self.alloc);
        let victim = self.victim(&mut paths, who);
        drop(paths);
        if let Some(victim) = victim {
            self.seen.victims = self.seen.victims.wrapping_add(1);
            self.settle(victim, Settled::Victim);
        }
        victim
    }

    // Returns the victim of the deadlock that a session is in, if there is one. All paths from the session are tried, the shorter ones first, and
    // those of one length in lexicographic order.
    fn victim(&self, paths: &mut Vec<Path>, who: u16) -> Option<u16> {
        if paths.push([who; 5]).is_err() {
            return None;
        }
        for index in 0..MOST_PATHS {
            let path = match paths.get(index) {
                Some(path) => *path,
                None => return None,
            };
            if self.waits_for(path[0], who) {
                return Some(self.lightest(path));
            }
            if !self.lengthen(paths, path) {
                return None;
            }
        }
        None
    }

    // Adds all paths that are one longer than this one. Whether there was memory for them.
    fn lengthen(&self, paths: &mut Vec<Path>, path: Path) -> bool {
        for seat in &self.seats {
            let next = seat.session;
            if self.waits_for(path[0], next) && !path.contains(&next) {
                let longer = [next, path[0], path[1], path[2], path[3]];
                if paths.push(longer).is_err() {
                    return false;
                }
            }
        }
        true
    }

    // Returns the member of a cycle whose request weighs least, and at equal weights the one with the greatest number.
    fn lightest(&self, cycle: Path) -> u16 {
        let mut victim = 0;
        let mut least = u8::MAX;
        for &member in &cycle {
            let weight = self.weight(member);
            if weight < least || (weight == least && member > victim) {
                victim = member;
                least = weight;
            }
        }
        victim
    }

    // Returns the weight of a session's request.
    fn weight(&self, who: u16) -> u8 {
        let Some(wish) = self.wish(who) else {
            return 0;
        };
        match (wish.lock, wish.mode) {
            (Lock::Global, _) => 100,
            (Lock::User, _) => 50,
            (_, Mode::SU | Mode::SRO | Mode::SNW | Mode::SNRW | Mode::X) => 100,
            _ => 0,
        }
    }

    // Whether one session waits for another. A waiting ticket blocks no session once its wait is settled.
    fn waits_for(&self, waiter: u16, other: u16) -> bool {
        let Some(wish) = self.wish(waiter) else {
            return false;
        };
        for ticket in &self.tickets {
            if ticket.session == other
                && waiter != other
                && (ticket.is_granted || self.wish(other).is_some())
                && ticket.is_in_the_way_of(&wish)
            {
                return true;
            }
        }
        false
    }
}
