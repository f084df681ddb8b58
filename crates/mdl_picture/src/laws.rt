//! Laws of pictures. Each is proved as the contract of a function that does nothing.
ghost use Rattle.mdl_picture.specs.Laws.{ArrowsAreSetApart, ArrowsAreThePairs, BoxesAreApart, BoxesAreTheEvents, BoxesGoRight, ColumnsAreApart, PicturesAreWellFormed, RowsAreTheSessions, RowsRise, TextsAreKept, TracksAreApart, WaitsAreDrawnOnce, WaitsGoRight, WhatIsHeldIsDrawn};

/// Each event has one box, in order.
pub fn boxes_are_the_events()
    ensures { BoxesAreTheEvents }
{}

/// Each wait is drawn once, in order.
pub fn waits_are_drawn_once()
    ensures { WaitsAreDrawnOnce }
{}

/// Of two boxes of a session, the later one begins to the right of the other's end.
pub fn boxes_are_apart()
    ensures { BoxesAreApart }
{}

/// Each box begins to the right of the arrows of those before.
pub fn boxes_go_right()
    ensures { BoxesGoRight }
{}

/// Each column is to the right of those before.
pub fn columns_are_apart()
    ensures { ColumnsAreApart }
{}

/// If each line belongs to one session, a wait that is settled ends to the right of where it begins.
pub fn waits_go_right()
    ensures { WaitsGoRight }
{}

/// Each session that blocks a wait when it begins has an arrow, and no other one.
pub fn arrows_are_the_pairs()
    ensures { ArrowsAreThePairs }
{}

/// Each arrow is to the right of those before.
pub fn arrows_are_set_apart()
    ensures { ArrowsAreSetApart }
{}

/// After each event, each lock that is held is drawn by one bar, and no other lock is. Intention locks aren't drawn.
pub fn what_is_held_is_drawn()
    ensures { WhatIsHeldIsDrawn }
{}

/// Two bars in one track of a row don't meet.
pub fn tracks_are_apart()
    ensures { TracksAreApart }
{}

/// The rows are in ascending order of their sessions.
pub fn rows_rise()
    ensures { RowsRise }
{}

/// Each session that takes part has a row, and no other session has one.
pub fn rows_are_the_sessions()
    ensures { RowsAreTheSessions }
{}

/// A picture is one well-formed element of XML, followed by a line feed.
pub fn pictures_are_well_formed()
    ensures { PicturesAreWellFormed }
{}

/// A text of a picture reads as the text that was given, with a question mark for each byte that isn't printed in ASCII.
pub fn texts_are_kept()
    ensures { TextsAreKept }
{}
