//! What the sessions of a run share.
ghost use Rattle.std.specs.Prelude.{◌≡◌, ◌≤◌, ℕ};
ghost use Rattle.std.specs.FinSet as set;
ghost use Rattle.mdl_calls.specs.Words.{is_within};
ghost use Rattle.mdl_key.specs.Words.{most_sessions};
ghost use Rattle.mdl_script.specs.RunTexts.{names_session};

use mdl_book::Sessions;
use mdl_key::MOST_SESSIONS;
use mdl_shared::Manager;
use mdl_syntax::Script;
use std::alloc::Global;

/// What the sessions of a run share: the runtime by which they wait, the allocator, the table, the script, how often a session looks at a
/// wait before it times out, how many definitions the cache of each keeps, and the gate that is called around each statement.
#[derive(Drop)]
pub(crate) struct SharedRun<'a, R, G> {
    pub(crate) rt: &'a R,
    pub(crate) alloc: Global,
    pub(crate) manager: &'a Manager,
    pub(crate) script: &'a Script,
    pub(crate) patience: u32,
    pub(crate) cache: u16,
    pub(crate) gate: &'a G,
}

/// Returns the sessions that the script names.
pub(crate) fn named_sessions(script: &Script) -> Sessions
    ensures { (who : ℕ) → 1 ≤ who → who ≤ most_sessions → set.contains result who ≡ names_session script.now who }
{
    let lines = script.lines();
    let mut named = Sessions::new();
    for line in lines {
        if is_session(line.session) {
            named.insert(line.session);
        }
    }
    named
}

// Whether a session can have this number.
fn is_session(who: u16) -> bool
    ensures { result ≡ is_within most_sessions who }
{
    1 <= who && who <= MOST_SESSIONS
}
