//! What a session pins once it has worked off its lines, over any lock space. The law is proved as the contract of a function that does
//! nothing.
ghost use Rattle.mdl_work.specs.WorkPins.{WorkLeavesNoPin};

use mdl_space::LockSpace;

/// A session that has nothing, pins nothing and owes no reschedule, is so again after it has worked off its lines, also if memory ran out.
pub fn work_leaves_no_pin<S: LockSpace>()
    ensures { WorkLeavesNoPin S.LockSpace }
{}
