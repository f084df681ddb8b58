//! How a context lets go of places.
ghost use Rattle.std.specs.Prelude.{◌≡◌, false, [], ◌∷◌};
ghost use Rattle.mdl_calls.specs.Words.{Runs};
ghost use Rattle.mdl_context.specs.Holdings.{context_of};
ghost use Rattle.mdl_context.specs.Tidying.{unneeded, unpinning_all};

use crate::holdings::Holdings;
use mdl_space::{LockSpace, Place};

/// Gives up the session's pins of the known places where the context has nothing. Returns whether there is such a place. Takes no
/// memory.
pub(crate) fn unpin_unneeded<S: LockSpace>(space: &mut S, who: u16, holdings: &Holdings) -> bool
    requires { S.speaks_for space.old who }
    ensures run { Runs S.joins space.old (unpinning_all who (unneeded (context_of who holdings.now))) tt space.new }
    ensures none { result ≡ false → unneeded (context_of who holdings.now) ≡ [] }
{
    let mut found = false;
    for at in 0..holdings.known_count() {
        let place = holdings.known_place(at);
        if !holdings.is_needed(place) {
            unpin(space, who, place);
            found = true;
        }
    }
    found
}

/// Gives up the session's pin of a place where it has nothing, unless it still owes the place a reschedule. Takes no memory.
pub(crate) fn unpin<S: LockSpace>(space: &mut S, who: u16, place: Place)
    requires { S.speaks_for space.old who }
    ensures speaks { S.speaks_for space.new who }
    ensures run { Runs S.joins space.old (unpinning_all who (place ∷ [])) tt space.new }
{
    let _answer = space.unpin(who, place);
}
