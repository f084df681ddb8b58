//! The lists of a lock, wherever they are stored.
ghost use Rattle.std.specs.Prelude.{◌≡◌};
ghost use Rattle.mdl_graph.specs.Graphs.{lock_of};

use mdl_book::Ticket;
use mdl_key::Namespace;
use std::marker::Model;

/// A lock's namespace and its two lists of tickets, each in order. Nothing else decides who waits for whom there.
#[derive(Drop)]
pub(crate) struct Lists<'a> {
    namespace: Namespace,
    granted: &'a [Ticket],
    waiting: &'a [Ticket],
}

impl<'a> Model for Lists<'a> {
    ghost use Rattle.mdl_book.specs.declared.book_view.BookView.{BookView};
    ghost use Rattle.mdl_graph.specs.Graphs.{lock_of};

    ghost Value = { BookView };

    ghost view = { λ lists. lock_of lists.namespace lists.granted.now lists.waiting.now };
}

impl<'a> Lists<'a> {
    /// Returns a lock of this namespace and these lists.
    pub(crate) fn new(
        namespace: Namespace,
        granted: &'a [Ticket],
        waiting: &'a [Ticket],
    ) -> Lists<'a>
        ensures { result ≡ lock_of namespace granted.now waiting.now }
    {
        Lists {
            namespace,
            granted,
            waiting,
        }
    }

    /// Returns the lock's namespace.
    pub(crate) fn namespace(&self) -> Namespace
        ensures { result ≡ self.now.key.namespace }
    {
        self.namespace
    }

    /// Returns the granted tickets.
    pub(crate) fn granted(&self) -> &[Ticket]
        ensures { result.now ≡ self.now.granted }
    {
        self.granted
    }

    /// Returns the waiting tickets.
    pub(crate) fn waiting(&self) -> &[Ticket]
        ensures { result.now ≡ self.now.waiting }
    {
        self.waiting
    }
}
