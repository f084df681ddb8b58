//! What a session sees of tables within one transaction. Each law is proved as the contract of a function that does nothing.
ghost use Rattle.mdl_script_laws.specs.Shown.{TransactionsKeepWhatTheySaw, TransactionsSeeOneDefinition};

/// Each time that a session reads a table within one transaction, it sees the same version with the same columns, as long as the
/// session itself changes no definition and goes back to no savepoint. It may get and release user-level locks. The law is about the
/// answers to the lines of a script: of statements that ended at once and of those that waited, whatever the other sessions did
/// between.
///
/// It is one transaction if it is open at the end. A session that lost its transaction, as the victim of a deadlock does, is not
/// covered.
pub fn transactions_see_one_definition()
    ensures { TransactionsSeeOneDefinition }
{}

/// What a session saw of a table in its transaction is the definition of the table's key as long as that transaction is open: no other
/// session has changed the table, dropped it, or created it again. The session must keep to the conditions of
/// [`transactions_see_one_definition`].
pub fn transactions_keep_what_they_saw()
    ensures { TransactionsKeepWhatTheySaw }
{}
