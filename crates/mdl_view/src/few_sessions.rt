//! The first of some sessions.
ghost use Rattle.std.specs.Prelude.{◌≡◌, ◌&&◌, ◌||◌, ℕ, Some, true, false, not};
ghost use Rattle.mdl_view.specs.SessionSets.{IsFew, is_apart, several_apart, some_apart};

/// Some sessions, of which the first two are kept.
#[derive(Clone, Copy, Debug, PartialEq, Eq)]
pub(crate) enum FewSessions {
    /// No session.
    Nobody,
    /// One session.
    One(usize),
    /// Two sessions.
    Two(usize, usize),
    /// Three sessions or more.
    More,
}

impl FewSessions {
    /// Notes one more session, which may be known.
    pub(crate) fn with(self, session: usize) -> FewSessions
        requires { IsFew self }
        ensures few { IsFew result }
        ensures apart { (one other : ℕ) → some_apart result one other ≡ (some_apart self one other || is_apart one other session) }
    {
        match self {
            FewSessions::Nobody => FewSessions::One(session),
            FewSessions::One(a) if a == session => self,
            FewSessions::One(a) => FewSessions::Two(a, session),
            FewSessions::Two(a, b) if a == session || b == session => self,
            _ => FewSessions::More,
        }
    }

    /// Notes one more session, if its ticket blocks and hasn't gone.
    pub(crate) fn with_if(self, blocks: bool, gone: bool, session: usize) -> FewSessions
        requires { IsFew self }
        ensures few { IsFew result }
        ensures apart { (one other : ℕ) → some_apart result one other ≡ (some_apart self one other || (blocks && not gone && is_apart one other session)) }
    {
        if blocks && !gone {
            self.with(session)
        } else {
            self
        }
    }

    /// Whether there is a session other than this one.
    pub(crate) fn has_other(self, session: usize) -> bool
        requires { IsFew self }
        ensures { result ≡ some_apart self session session }
    {
        match self {
            FewSessions::Nobody => false,
            FewSessions::One(a) => a != session,
            FewSessions::Two(_, _) => true,
            FewSessions::More => true,
        }
    }

    /// Whether there are two sessions other than this one.
    pub(crate) fn has_others(self, session: usize) -> bool
        ensures { result ≡ several_apart self session }
    {
        match self {
            FewSessions::Nobody => false,
            FewSessions::One(_) => false,
            FewSessions::Two(a, b) => a != session && b != session,
            FewSessions::More => true,
        }
    }

    /// The session other than this one, if there is just one.
    pub(crate) fn only_other(self, session: usize) -> Option<usize>
        requires { IsFew self }
        ensures { (other : ℕ) → some_apart self session session ≡ true → some_apart self session other ≡ false → result ≡ Some other }
    {
        match self {
            FewSessions::One(a) => Some(a),
            FewSessions::Two(a, b) if a == session => Some(b),
            FewSessions::Two(a, _) => Some(a),
            _ => None,
        }
    }
}
