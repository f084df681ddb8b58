//! Searches for deadlocks in a lock space of any kind, and waits that are given up.
ghost use Rattle.std.specs.Prelude.{◌≡◌, ℕ, true, IsOkUnless};
ghost use Rattle.mdl_key.specs.Keys.{KeyName};
ghost use Rattle.mdl_calls.specs.Words.{is_waiting, ending, Runs, seeking, most_searches};
ghost use Rattle.mdl_context.specs.Gains.{abandoning};
ghost use Rattle.mdl_context.specs.SearchEnds.{sought};

use crate::releasing::release;
use mdl_space::{Ended, LockSpace, Search, SpaceError};

// The greatest number of searches that are made at once.
const MOST_SEARCHES: u32 = 1024;

/// Searches for deadlocks until there is none left in which the session waits, the session itself is the victim, or 1,024
/// searches were made. Returns whether the searches are over.
pub(crate) fn seek<S: LockSpace>(space: &mut S, who: u16) -> Result<bool, SpaceError>
    requires { S.speaks_for space.old who }
    ensures refused { IsOkUnless result SpaceError.OutOfMemory }
    ensures run { Runs S.joins space.old (seeking most_searches who) (sought result) space.new }
    ensures speaks { S.speaks_for space.new who }
    ensures remembers { (place : ℕ) (key : KeyName) → S.knows space.old who place key → S.knows space.new who place key }
    ensures own { S.own space.new who ≡ S.own space.old who }
{
    for _turn in 0..MOST_SEARCHES {
        match space.search(who)? {
            Search::NoCycle => return Ok(true),
            Search::Victim(victim) if victim == who => return Ok(true),
            Search::Victim(_) => {}
        }
    }
    Ok(false)
}

/// Gives up the session's wait and ends it. If the lock was granted before, its ticket is released. Takes no memory.
pub(crate) fn abandon<S: LockSpace>(space: &mut S, who: u16)
    requires speaks { S.speaks_for space.old who }
    requires waits { is_waiting (S.own space.old who) ≡ true }
    ensures run { Runs S.joins space.old (abandoning who) tt space.new }
    ensures speaks { S.speaks_for space.new who }
    ensures remembers { (place : ℕ) (key : KeyName) → S.knows space.old who place key → S.knows space.new who place key }
    ensures own { S.own space.new who ≡ ending (S.own space.old who) }
{
    space.settle_timeout(who).unwrap();
    if let Ended::Granted(id) = space.end_wait(who).unwrap() {
        release(space, who, id);
    }
}
