//! Key words.
ghost use Rattle.std.specs.Prelude.{◌≡◌, [], ◌∷◌, Some, None, MatchOption};
ghost use Rattle.mdl_lines.specs.Lines.{words_of};
ghost use Rattle.mdl_syntax.specs.KeyWords.{behind};

use crate::words::split_word;

/// Returns the words after a key word, if the first word is that key word.
pub(crate) fn behind<'a>(key_word: &str, words: &'a [u8]) -> Option<&'a [u8]>
    ensures { MatchOption result (behind (key_word.now ∷ []) (words_of words.now) ≡ None)
        (λ rest. behind (key_word.now ∷ []) (words_of words.now) ≡ Some (words_of rest.now)) }
{
    let (word, rest) = split_word(words)?;
    (word == key_word.as_bytes()).then_some(rest)
}
