//! Which modes of a table's lock clash, written out here once more, and checks of books against that.
use mdl_book::Ticket;
use mdl_calls::Held;
use mdl_key::Mode;
use mdl_shared::Audited;

// Whether a mode clashes with one that another session has. Intention exclusive is no mode of a table's lock.
fn clashes(asked: Mode, held: Mode) -> bool {
    match asked {
        Mode::S | Mode::SH => matches!(held, Mode::X),
        Mode::SR => matches!(held, Mode::SNRW | Mode::X),
        Mode::SW | Mode::SWLP => { matches!(held, Mode::SRO | Mode::SNW | Mode::SNRW | Mode::X) }
        Mode::SU => matches!(held, Mode::SU | Mode::SNW | Mode::SNRW | Mode::X),
        Mode::SRO => matches!(held, Mode::SW | Mode::SWLP | Mode::SNRW | Mode::X),
        Mode::SNW => !matches!(held, Mode::S | Mode::SH | Mode::SR | Mode::SRO),
        Mode::SNRW => !matches!(held, Mode::S | Mode::SH),
        Mode::X | Mode::IX => true,
    }
}

/// Whether no granted tickets of different sessions clash, in each book.
pub(crate) fn are_lawful(books: &[Audited]) -> bool {
    for book in books {
        for asked in book.book.granted.iter() {
            for held in book.book.granted.iter() {
                if asked.session != held.session && clashes(asked.mode, held.mode) {
                    return false;
                }
            }
        }
    }
    true
}

/// Whether the books have just the tickets that a session holds, and no waiting ticket of it.
pub(crate) fn are_of(books: &[Audited], session: u16, held: &[Held]) -> bool {
    let (mut granted, mut waiting) = (0usize, 0usize);
    for book in books {
        granted = granted.saturating_add(count(&book.book.granted, session));
        waiting = waiting.saturating_add(count(&book.book.waiting, session));
    }
    let mut listed = true;
    for ticket in held {
        listed = listed && has_ticket(books, session, ticket);
    }
    granted == held.len() && waiting == 0 && listed
}

// Returns how many of the tickets are a session's.
fn count(tickets: &[Ticket], session: u16) -> usize {
    let mut count = 0usize;
    for ticket in tickets {
        count = count.saturating_add(usize::from(ticket.session == session));
    }
    count
}

fn has_ticket(books: &[Audited], session: u16, held: &Held) -> bool {
    let ticket = Ticket {
        number: held.id,
        session,
        mode: held.mode,
    };
    for book in books {
        if book.place == held.place && book.book.granted.contains(&ticket) {
            return true;
        }
    }
    false
}
