//! Laws of the lists of a book, together with fast tickets. Each is proved as the contract of a function that does nothing.
ghost use Rattle.mdl_book.specs.Laws.{LawfulByMembers, GrantableByMembers, NobodyIsNextWhereNoneIsForgotten, WhoIsNextIsGrantable, GrantingForgetsNobody, AdmittingForgetsNobody, EnqueueingForgetsNobody, SettlingForgetsNobody};

/// Whether granted tickets are lawful doesn't depend on their order, nor on how often each is listed.
pub fn lawful_by_members()
    ensures { LawfulByMembers }
{}

/// Whether a request is grantable doesn't depend on the order of either list, nor on how often each ticket is listed.
pub fn grantable_by_members()
    ensures { GrantableByMembers }
{}

/// [`Book::next_grantable`](crate::Book::next_grantable) returns `None` exactly if no waiter is forgotten. The word must count
/// the fast tickets exactly, and none of them may be of a session that waits.
pub fn nobody_is_next_where_none_is_forgotten()
    ensures { NobodyIsNextWhereNoneIsForgotten }
{}

/// The ticket that [`Book::next_grantable`](crate::Book::next_grantable) returns is grantable, even if the word counts fast
/// tickets that were released meanwhile.
pub fn who_is_next_is_grantable()
    ensures { WhoIsNextIsGrantable }
{}

/// Granting a ticket makes no waiter forgotten, be it by [`Book::grant`](crate::Book::grant) or as a fast ticket.
pub fn granting_forgets_nobody()
    ensures { GrantingForgetsNobody }
{}

/// [`Book::admit`](crate::Book::admit) makes no waiter forgotten, though none waits behind the granted ticket any more.
pub fn admitting_forgets_nobody()
    ensures { AdmittingForgetsNobody }
{}

/// [`Book::enqueue`](crate::Book::enqueue) makes no waiter forgotten if the request can't be granted.
pub fn enqueueing_forgets_nobody()
    ensures { EnqueueingForgetsNobody }
{}

/// Settling a session's wait makes no waiter forgotten.
pub fn settling_forgets_nobody()
    ensures { SettlingForgetsNobody }
{}
