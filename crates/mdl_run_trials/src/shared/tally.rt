//! How waits were settled, as recorded by the sessions that settled them and by those that waited.
use mdl_calls::Settled;
use std::alloc::Global;

// Sessions have numbers below this. What is counted of a session is at its number.
const SESSIONS: usize = 17;

/// How the waits of a session ended, and which waits it settled, as its calls reported: those that it killed, the victims of its searches, and
/// its own that it lost patience with.
#[derive(Drop)]
pub(crate) struct Tally {
    // How its waits ended, in the order of their numbers, which begin with 1.
    ends: Vec<Settled>,
    // The numbers of those that it lost patience with, in rising order.
    impatient: Vec<u64>,
    // The waits that it killed: the sessions that waited, and the waits' numbers.
    kills: Vec<(u16, u64)>,
    victims: [u64; SESSIONS],
}

impl Tally {
    /// Returns the tally of a session that has done nothing.
    pub(crate) fn new(alloc: Global) -> Tally {
        Tally {
            ends: Vec::new(alloc),
            impatient: Vec::new(alloc),
            kills: Vec::new(alloc),
            victims: [0; SESSIONS],
        }
    }

    /// Returns how many waits it had, which all have ended.
    pub(crate) fn waits(&self) -> u64 {
        self.ends.len() as u64
    }

    /// Whether a wait that begins has the number after that of the last one.
    pub(crate) fn is_next(&self, wait: u64) -> bool {
        self.waits().checked_add(1) == Some(wait)
    }

    /// Records that the session loses patience with its wait. This function and the next two return whether there was memory.
    pub(crate) fn lose_patience(&mut self, wait: u64) -> bool {
        self.impatient.push(wait).is_ok()
    }

    /// Records how the session's last wait has ended.
    pub(crate) fn end(&mut self, how: Settled) -> bool {
        self.ends.push(how).is_ok()
    }

    /// Records that it has killed a wait of a session.
    pub(crate) fn kill(&mut self, session: u16, wait: u64) -> bool {
        self.kills.push((session, wait)).is_ok()
    }

    /// Records that its search has found a session as the victim.
    pub(crate) fn fell(&mut self, session: u16) {
        if let Some(victims) = self.victims.get_mut(usize::from(session)) {
            *victims = victims.saturating_add(1);
        }
    }

    /// Returns how often its searches found a session as the victim.
    pub(crate) fn victims(&self, session: u16) -> u64 {
        self.victims.get(usize::from(session)).copied().unwrap_or(0)
    }

    /// Adds the numbers of the waits of a session that it killed. Whether there was memory.
    pub(crate) fn tell_kills(&self, session: u16, killed: &mut Vec<u64>) -> bool {
        let mut told = true;
        for (waiter, wait) in &self.kills {
            if *waiter == session {
                told = killed.push(*wait).is_ok() && told;
            }
        }
        told
    }

    /// Returns how many of its waits ended in this way.
    pub(crate) fn count(&self, how: Settled) -> u64 {
        let mut count = 0u64;
        for end in &self.ends {
            count = count.saturating_add(u64::from(*end == how));
        }
        count
    }

    // Whether the waits that ended in this way have just these numbers, in rising order.
    fn are(&self, how: Settled, waits: &[u64]) -> bool {
        let mut rest = waits.iter();
        let mut number = 0u64;
        for end in &self.ends {
            number = number.saturating_add(1);
            if *end == how && rest.next() != Some(&number) {
                return false;
            }
        }
        rest.next().is_none()
    }

    /// Whether its waits ended as the sessions that settled them recorded: these were killed, in rising order, and it was found as the victim so
    /// often.
    pub(crate) fn agrees(&self, killed: &[u64], victims: u64) -> bool {
        self.are(Settled::Killed, killed)
            && self.are(Settled::Timeout, &self.impatient)
            && self.count(Settled::Victim) == victims
    }
}
