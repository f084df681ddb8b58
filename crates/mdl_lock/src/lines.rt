//! What a line of a lock script says.
ghost use Rattle.std.specs.Prelude.{◌≡◌};
ghost use Rattle.mdl_lines.specs.Lines.{words_of};
ghost use Rattle.mdl_lock.specs.Scripts.{action_of, words_say, line_says};

use crate::script_command::{Action, ScriptCommand};
use mdl_key::{Kind, Mode};
use mdl_lines::{LineError, first_words, is_comment, session_of};
use std::str;

/// Returns what a line says: nothing, a command, or its first fault.
pub fn line_says(kind: Kind, line: &[u8]) -> Result<Option<ScriptCommand>, LineError>
    ensures { result ≡ line_says kind line.now }
{
    if is_comment(line)? {
        return Ok(None);
    }
    words_say(kind, line)
}

// Returns what the words of a line say: a session and one word after it.
fn words_say(kind: Kind, line: &[u8]) -> Result<Option<ScriptCommand>, LineError>
    ensures { result ≡ words_say kind (words_of line.now) }
{
    let Some((first, second)) = first_words(line) else {
        return Ok(None);
    };
    let Some(session) = session_of(first) else {
        return Err(LineError::BadSession);
    };
    let Some(action) = second.and_then(|word| action_of(kind, word)) else {
        return Err(LineError::BadWord);
    };
    Ok(Some(ScriptCommand { session, action }))
}

// Returns what the word after the session asks for.
fn action_of(kind: Kind, word: &[u8]) -> Option<Action>
    ensures { result ≡ action_of kind word.now }
{
    let name = str::from_utf8(word).ok()?;
    match name {
        "RELEASE" => Some(Action::Release),
        "TIMEOUT" => Some(Action::Timeout),
        _ => {
            let mode = name.parse::<Mode>().ok()?;
            kind.has_mode(mode).then_some(Action::Ask(mode))
        }
    }
}
