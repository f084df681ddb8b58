//! The lock space in which a script starts.
ghost use Rattle.std.specs.Prelude.{◌≡◌, ◌≤◌, ℕ, OnOk, IfOk};
ghost use Rattle.mdl_key.specs.Words.{most_sessions};
ghost use Rattle.mdl_calls.specs.Words.{outcome_of};
ghost use Rattle.mdl_core.specs.CoreCalls.{outcome};
ghost use Rattle.mdl_core.specs.CoreJoins.{SpeaksFor};
ghost use Rattle.mdl_script.specs.Worlds.{creating, first_core};

use mdl_defs::{Change, Definition};
use mdl_key::{Key, MOST_PLACES, MOST_SESSIONS, Mode};
use mdl_space::{Attempt, CoreSpace, LockSpace};
use std::alloc::{AllocError, Global};

// The session that creates the first schema.
const FIRST: u16 = 1;

/// Returns a new space in which the schema `test` was created and nothing else was done. No session pins a place there.
pub(crate) fn first_space(alloc: Global) -> Result<CoreSpace, AllocError>
    ensures made { IfOk result (λ space. space ≡ first_core) }
    ensures speaks { IfOk result (λ space. (who : ℕ) → 1 ≤ who → who ≤ most_sessions → SpeaksFor space who) }
{
    let Ok(mut space) = CoreSpace::new(alloc, MOST_PLACES, MOST_SESSIONS) else {
        return Err(AllocError);
    };
    let Ok(test) = Key::schema(alloc, "test") else {
        return Err(AllocError);
    };
    create(&mut space, &test)?;
    Ok(space)
}

// Session 1 creates a schema, whose lock no other session has.
fn create(space: &mut CoreSpace, schema: &Key) -> Result<(), AllocError>
    requires { (who : ℕ) → 1 ≤ who → who ≤ most_sessions → SpeaksFor space.old who }
    ensures made { OnOk result (space.new ≡ (outcome_of outcome (creating schema.now) space.old).1) }
    ensures speaks { OnOk result ((who : ℕ) → 1 ≤ who → who ≤ most_sessions → SpeaksFor space.new who) }
{
    let Ok(place) = space.resolve(FIRST, schema) else {
        return Err(AllocError);
    };
    let Ok(Attempt::Granted(id)) = space.try_now(FIRST, place, Mode::X) else {
        return Err(AllocError);
    };
    let change = Change::Create(Definition::Schema);
    if space.change_definition(FIRST, id, &change).is_err() {
        return Err(AllocError);
    }
    if space.release(FIRST, id).is_err() {
        return Err(AllocError);
    }
    if space.unpin(FIRST, place).is_err() {
        return Err(AllocError);
    }
    Ok(())
}
