//! For a session that gains a mode at a place where it has a ticket that is at least as strong. A ticket that clashes with the mode
//! clashes with that ticket, too, so there is none: neither the lists nor the lock's word are read. The flags that the mode needs are up
//! already. The same holds when a fast ticket of the session becomes slow, except that the flag SLOW is raised for it.
use mdl_word::Word;

/// A word that counts no fast ticket: the session's own ticket keeps fast tickets away that clash with the mode.
pub(crate) const NO_FAST_TICKETS: Word = Word(0);
