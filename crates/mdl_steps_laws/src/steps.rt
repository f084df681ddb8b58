//! Each step that makes deeds or a change of a definition take effect is one event of the table's system. Each law is proved as the contract
//! of a function that does nothing.
ghost use Rattle.mdl_steps_laws.specs.StepEvents.{PuttingBrings, LoweringBrings, WritingBrings};

/// What a session does by the step that gives a latch back is one event (a grant, a clone, an upgrade, a downgrade, a merge or a release), or
/// the step leaves the system unchanged.
pub fn putting_brings()
    ensures { PuttingBrings }
{}

/// The same holds for the step that lowers flags.
pub fn lowering_brings()
    ensures { LoweringBrings }
{}

/// The step that writes a version changes the definition in the system, under an exclusive ticket of the session.
pub fn writing_brings()
    ensures { WritingBrings }
{}
