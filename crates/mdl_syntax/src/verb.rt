//! The first words of statements.
ghost use Rattle.std.specs.Prelude.{◌≡◌};
ghost use Rattle.mdl_syntax.specs.Verbs.{verb_of};

/// The first word of a statement.
#[derive(Clone, Copy)]
pub(crate) enum Verb {
    Begin,
    Start,
    Commit,
    Rollback,
    Savepoint,
    Select,
    Insert,
    Update,
    Delete,
    Create,
    Drop,
    Rename,
    Alter,
    Lock,
    Unlock,
    Flush,
    Kill,
    Timeout,
    GetLock,
    ReleaseLock,
}

/// Returns the verb that a word is, if it is one.
pub(crate) fn verb_of(word: &[u8]) -> Option<Verb>
    ensures { result ≡ verb_of word.now }
{
    match word {
        b"BEGIN" => Some(Verb::Begin),
        b"START" => Some(Verb::Start),
        b"COMMIT" => Some(Verb::Commit),
        b"ROLLBACK" => Some(Verb::Rollback),
        b"SAVEPOINT" => Some(Verb::Savepoint),
        b"SELECT" => Some(Verb::Select),
        b"INSERT" => Some(Verb::Insert),
        b"UPDATE" => Some(Verb::Update),
        b"DELETE" => Some(Verb::Delete),
        b"CREATE" => Some(Verb::Create),
        b"DROP" => Some(Verb::Drop),
        b"RENAME" => Some(Verb::Rename),
        b"ALTER" => Some(Verb::Alter),
        b"LOCK" => Some(Verb::Lock),
        b"UNLOCK" => Some(Verb::Unlock),
        b"FLUSH" => Some(Verb::Flush),
        b"KILL" => Some(Verb::Kill),
        b"TIMEOUT" => Some(Verb::Timeout),
        b"GET_LOCK" => Some(Verb::GetLock),
        b"RELEASE_LOCK" => Some(Verb::ReleaseLock),
        _ => None,
    }
}
