//! What a line of a script contains.
ghost use Rattle.std.specs.Prelude.{◌≡◌, ℕ, List, [], ◌∷◌, IfOk, MatchOption, map};
ghost use Rattle.std.specs.Option.{option_map};
ghost use Rattle.std.specs.Str.Lines.{strip_carriage_return};
ghost use Rattle.mdl_lines.specs.Lines.{is_blank, line_in, lines_of, words_of, only};
ghost use Rattle.mdl_lines.specs.ScriptLines.{is_comment};
ghost use Rattle.mdl_lines.specs.Sessions.{session_of};

use crate::fault::LineError;
use mdl_key::MOST_SESSIONS;
use std::alloc::{AllocError, Global};

// The longest line, in bytes.
const LONGEST_LINE: usize = 4096;

/// Cuts a text at its line feeds. A carriage return at the end of a line is not part of it.
pub fn lines_of(alloc: Global, text: &[u8]) -> Result<Vec<&[u8]>, AllocError>
    ensures { IfOk result (λ lines. map (λ line. line.now) lines.items ≡ lines_of text.now) }
{
    text.split(|byte| *byte == b'\n')
        .map(|line| strip_carriage_return(line))
        .collect(alloc)
}

/// Returns the line of this number, counted from 1, or an empty line if there is none.
pub fn line_at<'t>(lines: &[&'t [u8]], number: u64) -> &'t [u8]
    ensures { result.now ≡ line_in (map (λ line. line.now) lines.now) number }
{
    let place = number.saturating_sub(1) as usize;
    lines.get(place).copied().unwrap_or(&[])
}

/// Returns a line without the carriage return at its end.
pub fn strip_carriage_return(line: &[u8]) -> &[u8]
    ensures { result.now ≡ strip_carriage_return line.now }
{
    match line {
        [line @ .., b'\r'] => line,
        _ => line,
    }
}

/// Whether a line begins with `#`, so that its words are not read. A line that is too long is refused first, and then one that
/// is not ASCII.
pub fn is_comment(line: &[u8]) -> Result<bool, LineError>
    ensures { result ≡ is_comment line.now }
{
    if line.len() > LONGEST_LINE {
        return Err(LineError::LongLine);
    }
    if !line.is_ascii() {
        return Err(LineError::NotAscii);
    }
    Ok(matches!(line, [b'#', ..]))
}

/// Returns the first word of a line, and the second if it is the last.
pub fn first_words(line: &[u8]) -> Option<(&[u8], Option<&[u8]>)>
    ensures { MatchOption result (words_of line.now ≡ [])
        (λ found. (others : List (List ℕ)) × (words_of line.now ≡ found.0.now ∷ others) × (only others ≡ option_map (λ word. word.now) found.1)) }
{
    let mut words = line
        .split(|byte| is_blank(*byte))
        .filter(|word| !word.is_empty());
    let first = words.next()?;
    let Some(second) = words.next() else {
        return Some((first, None));
    };
    match words.next() {
        None => Some((first, Some(second))),
        Some(_) => Some((first, None)),
    }
}

/// Whether a byte separates words: a space or a tab.
pub fn is_blank(byte: u8) -> bool
    ensures { result ≡ is_blank byte }
{
    byte == b' ' || byte == b'\t'
}

/// Returns the session that a word names: a number from 1 to [`MOST_SESSIONS`] in one to four digits, without a leading 0.
#[tactic(auto, using(crate::proofs::Sessions::none_for_long))]
pub fn session_of(word: &[u8]) -> Option<u16>
    ensures { result ≡ session_of word.now }
{
    match word {
        [ones @ b'1'..=b'9'] => Some(u16::from(*ones - b'0')),
        [tens @ b'1'..=b'9', ones @ b'0'..=b'9'] => {
            Some(10 * u16::from(*tens - b'0') + u16::from(*ones - b'0'))
        }
        [
            hundreds @ b'1'..=b'9',
            tens @ b'0'..=b'9',
            ones @ b'0'..=b'9',
        ] => Some(
            10 * (10 * u16::from(*hundreds - b'0') + u16::from(*tens - b'0'))
                + u16::from(*ones - b'0'),
        ),
        [
            thousands @ b'1'..=b'9',
            hundreds @ b'0'..=b'9',
            tens @ b'0'..=b'9',
            ones @ b'0'..=b'9',
        ] => {
            let session = 10
                * (10 * (10 * u16::from(*thousands - b'0') + u16::from(*hundreds - b'0'))
                    + u16::from(*tens - b'0'))
                + u16::from(*ones - b'0');
            (session <= MOST_SESSIONS).then_some(session)
        }
        _ => None,
    }
}
