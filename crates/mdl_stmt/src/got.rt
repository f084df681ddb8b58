//! The results of what statements request.
use crate::lock_list::LockList;
use crate::stage::Stage;
use mdl_key::{Key, Mode};
use mdl_rows::Ending;

/// The result of a request for locks.
#[derive(Drop)]
pub enum LockResult<T> {
    /// The locks are held.
    Had(T),
    /// The session waits for the lock of this key.
    Waits(Key),
    /// The statement is to end with this ending.
    Ends(Ending),
}

/// The result of a request for a list of locks.
#[derive(Drop)]
pub enum Listed {
    /// The locks are held.
    Had(LockList),
    /// The session waits for the lock of this key in this mode, and holds the locks before it in this list.
    Waits(Key, Mode, LockList),
    /// The statement is to end with this ending.
    Ends(Ending),
}

/// How far a statement has come.
#[derive(Drop)]
pub enum Played<'s> {
    /// The statement is to end with this ending.
    Ends(Ending),
    /// The statement waits for the lock of this key in this mode, and this is left of it.
    Waits(Key, Mode, Stage<'s>),
}
