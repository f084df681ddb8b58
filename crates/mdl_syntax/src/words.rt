//! The words of a line, one after the other.
ghost use Rattle.std.specs.Prelude.{◌≡◌, ◌<◌, [], ◌∷◌, length, position, MatchOption, IfSome};
ghost use Rattle.mdl_lines.specs.Lines.{is_blank, words_of};

use mdl_lines::is_blank;

/// Returns the first word, and what follows it.
pub(crate) fn split_word(line: &[u8]) -> Option<(&[u8], &[u8])>
    ensures word { MatchOption result (words_of line.now ≡ []) (λ found. words_of line.now ≡ found.0.now ∷ words_of found.1.now) }
    ensures shorter { IfSome result (λ found. length found.1.now < length line.now) }
{
    let mut left = line;
    while let Some(end) = first_blank(left) {
        let word = &left[..end];
        let rest = &left[end + 1..];
        if !word.is_empty() {
            return Some((word, rest));
        }
        left = rest;
    }
    if left.is_empty() {
        return None;
    }
    Some((left, &[]))
}

// Returns where the first blank is.
fn first_blank(line: &[u8]) -> Option<usize>
    ensures { result ≡ position is_blank line.now }
{
    line.iter().position(|byte| is_blank(*byte))
}
