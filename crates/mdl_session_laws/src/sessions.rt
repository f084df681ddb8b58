//! Sessions stay sound, and their tickets are their own. Each law is proved as the contract of a function that does nothing.
ghost use Rattle.mdl_session_laws.specs.SpaceLaws.{SessionsBeginSound, CallsKeepSessionsSound, NumbersRise, OthersChangeNothing};

/// A session that has nothing yet is sound.
pub fn sessions_begin_sound()
    ensures { SessionsBeginSound }
{}

/// A sound session is sound after each call, whatever the call answers.
pub fn calls_keep_sessions_sound()
    ensures { CallsKeepSessionsSound }
{}

/// The numbers of the tickets that a session holds rise.
pub fn numbers_rise()
    ensures { NumbersRise }
{}

/// The calls of other sessions change nothing of what a session has.
pub fn others_change_nothing()
    ensures { OthersChangeNothing }
{}
