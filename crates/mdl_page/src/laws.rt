//! Laws of pages. Each is proved as the contract of a function that does nothing.
ghost use Rattle.mdl_page.specs.PageLaws.{DataHasNoMarkup, TextHasNoMarkup};

/// No byte of the data is a `<`, whatever the facts are: nothing in them ends the element that the data are in, or begins another one.
pub fn data_has_no_markup()
    ensures { DataHasNoMarkup }
{}

/// No byte of a script's text is a `<` in a page, whatever the text is.
pub fn text_has_no_markup()
    ensures { TextHasNoMarkup }
{}
