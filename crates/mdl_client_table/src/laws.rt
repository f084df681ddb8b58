//! A law of names, proved as the contract of a function that does nothing.
ghost use Rattle.mdl_client_table.specs.Escapes.{NamesComeBack};

/// The name read from the field that the client writes for a name is that name.
pub fn names_come_back()
    ensures { NamesComeBack }
{}
