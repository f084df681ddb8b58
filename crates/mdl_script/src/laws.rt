//! A law of the texts of all runs of scripts on threads. It is proved as the contract of a function that does nothing.
ghost use Rattle.mdl_script.specs.RunLaws.{RunsHaveOneText};

/// The answers to a script's sessions and the books that an audit finds at the end determine the text of a run.
pub fn runs_have_one_text()
    ensures { RunsHaveOneText }
{}
