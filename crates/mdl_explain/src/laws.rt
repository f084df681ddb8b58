//! Laws of explanations. Each is proved as the contract of a function that does nothing.
ghost use Rattle.mdl_explain.specs.Laws.{OtherPlansAreTold, StepsAreLines};

/// Each step of a plan has one line, but those that only prepare others, and no line is of anything else.
pub fn steps_are_lines()
    ensures { StepsAreLines }
{}

/// Where no other plan is told of a session with locked tables or with the global read lock, it has the plan of most sessions.
pub fn other_plans_are_told()
    ensures { OtherPlansAreTold }
{}
