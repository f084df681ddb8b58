//! Scripts.
ghost use Rattle.std.specs.Prelude.{◌≡◌};

use crate::Statement;
use std::marker::Model;

/// A line that asks a session for a statement.
#[derive(Drop)]
pub struct Line {
    /// The line's number, counted from 1.
    pub number: u64,
    /// The session that is asked, from 1 to [`MOST_SESSIONS`](mdl_key::MOST_SESSIONS).
    pub session: u16,
    /// The statement that it is asked for.
    pub statement: Statement,
}

/// The lines of a script that ask for a statement, in order.
#[derive(Drop)]
pub struct Script {
    pub(crate) lines: Vec<Line>,
}

impl Model for Script {
    ghost use Rattle.std.specs.Prelude.{List};
    ghost use Rattle.mdl_syntax.specs.declared.script.Line.{Line};

    ghost Value = { List Line };

    ghost view = { λ script. script.lines.items };
}

impl Script {
    /// Returns the lines, in order.
    pub fn lines(&self) -> &[Line]
        ensures { result.now ≡ self.now }
    {
        &self.lines
    }
}
