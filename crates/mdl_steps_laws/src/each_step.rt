//! Each step of each session as an event of the table's system. The law is proved as the contract of a function that does nothing.
ghost use Rattle.mdl_steps_laws.specs.EachStep.{EachStepIsOneEvent, EachStepHappensOrRests};

/// Each step that a session may make (`IsWhole`) is one event of the system, under the key of the step's place if it is at one, or leaves the
/// system unchanged. The kind of step decides which event it is. The clause `short` says so without naming the event.
pub fn each_step_is_one_event()
    ensures named { EachStepIsOneEvent }
    ensures short { EachStepHappensOrRests }
{}
