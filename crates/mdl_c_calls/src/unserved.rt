//! Why a `ServedSpace` refuses a session's call.

/// Why a `ServedSpace` itself, and not its `CoreSpace` or a context, refuses a session's call.
#[derive(Clone, Copy)]
pub enum Unserved {
    /// There is no such session.
    NoSession,
    /// A context keeps its tickets.
    HasContext,
    /// No context keeps its tickets.
    NoContext,
    /// It holds a ticket, has a wait or pins a place.
    InUse,
    /// Memory ran out.
    OutOfMemory,
}
