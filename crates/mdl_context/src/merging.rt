//! Merges of tickets in a lock space of any kind.
ghost use Rattle.std.specs.Prelude.{◌≡◌, ℕ, true, false, IfErr};
ghost use Rattle.mdl_key.specs.Keys.{KeyName};
ghost use Rattle.mdl_calls.specs.Causes.{Mergeable};
ghost use Rattle.mdl_calls.specs.Words.{is_waiting, Runs};
ghost use Rattle.mdl_context.specs.Upgrades.{merging_new, own_merged, is_merge_refusal};

use crate::releasing::release;
use mdl_space::{LockSpace, SpaceError, TicketId};

/// Merges a new ticket into a held one of the same place: the held ticket gets the new one's mode, and the new one is removed.
/// If that is refused, the new ticket is released.
pub(crate) fn merge<S: LockSpace>(
    space: &mut S,
    who: u16,
    id: TicketId,
    new: TicketId,
) -> Result<(), SpaceError>
    requires speaks { S.speaks_for space.old who }
    requires idle { is_waiting (S.own space.old who) ≡ false }
    requires mergeable { Mergeable true id new (S.own space.old who) }
    ensures refused { IfErr result (λ refusal. is_merge_refusal refusal ≡ true) }
    ensures run { Runs S.joins space.old (merging_new who id new) result space.new }
    ensures speaks { S.speaks_for space.new who }
    ensures remembers { (place : ℕ) (key : KeyName) → S.knows space.old who place key → S.knows space.new who place key }
    ensures own { S.own space.new who ≡ own_merged id new result (S.own space.old who) }
{
    match space.merge(who, id, new) {
        Ok(()) => Ok(()),
        Err(refusal) => {
            release(space, who, new);
            Err(refusal)
        }
    }
}
