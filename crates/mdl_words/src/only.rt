//! Command lines of one word.
ghost use Rattle.std.specs.Prelude.{◌≡◌, ◌↔◌, ◌∷◌, [], IsTrue, drop, map};

use std::convert::AsStr;

/// Whether the words of a command line, after the program's name, are this word and nothing else.
pub fn is_only_word<S: AsStr>(words: &[S], wanted: &str) -> bool
    ensures { IsTrue result ↔ (drop 1 (map S.text words.now) ≡ wanted.now ∷ []) }
{
    match words {
        [_, word] => word.as_str() == wanted,
        _ => false,
    }
}
