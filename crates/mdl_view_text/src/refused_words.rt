//! Which word of a script is refused, and why.
ghost use Rattle.std.specs.Prelude.{◌≡◌, ◌∷◌, ◌++◌, [], filter, get_or, take, IfOk, OnOk};
ghost use Rattle.std.specs.List.{list_all, list_any};
ghost use Rattle.mdl_view_text.specs.Explanations.{bad_word_explained, ends_word, explanation, first_bad_word, goes_on_with, is_of_names, is_script, last_end, line_explained, may_go_on, missing_word_explained, reason_of, word_before, word_ends, word_explained, word_start};

use crate::refusal::{refused_line, refused_word};
use mdl_lines::{Fault, LineError, is_blank, line_at, lines_of};
use mdl_syntax::parse;
use std::alloc::{AllocError, Global};

/// A word of a line.
#[derive(Clone, Copy)]
pub(crate) struct WordPlace {
    /// Its number, counted from 1.
    pub(crate) number: u64,
    /// The index of its end.
    pub(crate) end: usize,
}

// The ways in which a beginning of a statement may continue: for each form of statement, what remains of it after each of its words.
const ENDINGS: &[&[u8]] = &[
    b"BEGIN",
    b"TRANSACTION",
    b"a",
    b"b",
    b"1",
    b"a c",
    b"TABLE a c",
    b"TABLE a",
    b"TABLE a TO b",
    b"a TO b",
    b"TO a",
    b"TO b",
    b"TABLE a ADD c COPY",
    b"a ADD c COPY",
    b"ADD c COPY",
    b"c COPY",
    b"COPY",
    b"TABLES a READ",
    b"a READ",
    b"READ",
    b"TABLES",
    b"TABLES WITH READ LOCK",
    b"WITH READ LOCK",
    b"READ LOCK",
    b"LOCK",
    b"QUERY 1",
];

/// Returns why the line of this number, counted from 1, is refused: `line 3, word 3: "Orders" is no name: names have a-z, 0-9 and _`. The
/// word is the first one after which the line can neither end nor continue, or the last one, if one is missing after it.
pub fn explanation(
    alloc: Global,
    text: &[u8],
    number: u64,
    error: LineError,
) -> Result<Vec<u8>, AllocError>
    ensures { IfOk result (λ told. told.items ≡ explanation text.now number error) }
{
    let lines = lines_of(alloc, text)?;
    line_explained(alloc, number, error, line_at(&lines, number))
}

// Why this line is refused.
fn line_explained(
    alloc: Global,
    number: u64,
    error: LineError,
    line: &[u8],
) -> Result<Vec<u8>, AllocError>
    ensures { IfOk result (λ told. told.items ≡ line_explained number error line.now) }
{
    match error {
        LineError::LongLine => refused_line(alloc, number, b"it has more than 4096 bytes"),
        LineError::NotAscii => refused_line(alloc, number, b"it has a byte that is not ASCII"),
        LineError::BadSession | LineError::BadWord | LineError::BadName => {
            words_explained(alloc, number, error, line)
        }
    }
}

// Why this line is refused because of its words.
fn words_explained(
    alloc: Global,
    number: u64,
    error: LineError,
    line: &[u8],
) -> Result<Vec<u8>, AllocError>
    ensures { IfOk result (λ told. told.items ≡ word_explained number error line.now (first_bad_word line.now 1 (word_ends line.now))) }
{
    let ends = word_ends(alloc, line)?;
    match first_bad_word(alloc, line, &ends)? {
        Some(place) => bad_word_explained(alloc, number, error, line, place),
        None => missing_word_explained(alloc, number, line, &ends),
    }
}

// Why a word is refused.
fn bad_word_explained(
    alloc: Global,
    number: u64,
    error: LineError,
    line: &[u8],
    place: WordPlace,
) -> Result<Vec<u8>, AllocError>
    ensures { IfOk result (λ told. told.items ≡ bad_word_explained number error line.now place) }
{
    let word = word_before(line, place.end);
    let reason = reason_of(error, word);
    refused_word(alloc, number, place.number, word, reason)
}

// Says that a word is missing after the last one.
fn missing_word_explained(
    alloc: Global,
    number: u64,
    line: &[u8],
    ends: &[usize],
) -> Result<Vec<u8>, AllocError>
    ensures { IfOk result (λ told. told.items ≡ missing_word_explained number line.now ends.now) }
{
    let word = word_before(line, last_end(ends));
    let count = ends.len() as u64;
    refused_word(alloc, number, count, word, b": a word is missing behind it")
}

// The first word after which the line can neither end nor continue.
fn first_bad_word(
    alloc: Global,
    line: &[u8],
    ends: &[usize],
) -> Result<Option<WordPlace>, AllocError>
    ensures { IfOk result (λ found. found ≡ first_bad_word line.now 1 ends.now) }
{
    for (place, end) in ends.iter().enumerate() {
        if !may_go_on(alloc, until(line, *end))? {
            return Ok(Some(WordPlace {
                number: place as u64 + 1,
                end: *end,
            }));
        }
    }
    Ok(None)
}

// Whether a beginning of a line may end here, or continue.
fn may_go_on(alloc: Global, line: &[u8]) -> Result<bool, AllocError>
    ensures { IfOk result (λ may. may ≡ may_go_on line.now) }
{
    let may_end = is_script(alloc, line)?;
    if may_end {
        return Ok(true);
    }
    goes_on(alloc, line, ENDINGS)
}

// Whether a beginning of a line may continue in one of these ways.
fn goes_on(alloc: Global, line: &[u8], endings: &[&[u8]]) -> Result<bool, AllocError>
    ensures { IfOk result (λ may. may ≡ list_any (λ ending. goes_on_with line.now ending.now) endings.now) }
{
    for ending in endings {
        if goes_on_with(alloc, line, ending)? {
            return Ok(true);
        }
    }
    Ok(false)
}

// Whether a beginning of a line may continue in this way.
fn goes_on_with(alloc: Global, line: &[u8], ending: &[u8]) -> Result<bool, AllocError>
    ensures { IfOk result (λ may. may ≡ goes_on_with line.now ending.now) }
{
    let mut text = Vec::new(alloc);
    text.extend_from_slice(line)?;
    text.push(b' ')?;
    text.extend_from_slice(ending)?;
    is_script(alloc, &text)
}

// Whether a text is a script.
fn is_script(alloc: Global, text: &[u8]) -> Result<bool, AllocError>
    ensures { IfOk result (λ is. is ≡ is_script text.now) }
{
    match parse(alloc, text) {
        Ok(script) => Ok(true),
        Err(Fault::Refused(line, error)) => Ok(false),
        Err(fault) => Err(AllocError),
    }
}

// Where the words of a line end.
fn word_ends(alloc: Global, line: &[u8]) -> Result<Vec<usize>, AllocError>
    ensures { IfOk result (λ ends. ends.items ≡ word_ends line.now) }
{
    let mut ends = Vec::new(alloc);
    for place in 0..line.len() {
        add_end(&mut ends, line, place + 1)?;
    }
    Ok(ends)
}

// Adds an index, if a word ends there.
fn add_end(ends: &mut Vec<usize>, line: &[u8], end: usize) -> Result<(), AllocError>
    ensures { OnOk result (ends.new.items ≡ ends.old.items ++ filter (ends_word line.now) (end ∷ [])) }
{
    if ends_word(line, end) {
        ends.push(end)?;
    }
    Ok(())
}

// Whether a word of a line ends at this index.
fn ends_word(line: &[u8], end: usize) -> bool
    ensures { result ≡ ends_word line.now end }
{
    !is_blank(byte_at(line, end.saturating_sub(1))) && is_blank(byte_at(line, end))
}

// The byte at this index, or a blank after the end of the line.
fn byte_at(line: &[u8], place: usize) -> u8
    ensures { result ≡ get_or line.now place 32 }
{
    match line.get(place) {
        Some(byte) => *byte,
        None => b' ',
    }
}

// The last of these indices, or 0.
fn last_end(ends: &[usize]) -> usize
    ensures { result ≡ last_end ends.now }
{
    match ends.get(ends.len().saturating_sub(1)) {
        Some(end) => *end,
        None => 0,
    }
}

// The beginning of a line, up to this index.
fn until(line: &[u8], end: usize) -> &[u8]
    ensures { result.now ≡ take end line.now }
{
    if end >= line.len() {
        return line;
    }
    &line[..end]
}

// The word that ends at this index.
fn word_before(line: &[u8], end: usize) -> &[u8]
    ensures { result.now ≡ word_before line.now end }
{
    let text = until(line, end);
    let start = word_start(line, end);
    if start >= text.len() {
        return &[];
    }
    &text[start..]
}

// The index where the word that ends at `end` begins.
fn word_start(line: &[u8], end: usize) -> usize
    ensures { result ≡ word_start line.now end }
{
    for back in 0..end {
        let place = end - back;
        if is_blank(byte_at(line, place - 1)) {
            return place;
        }
    }
    0
}

// Why a word is refused.
fn reason_of(error: LineError, word: &[u8]) -> &'static [u8]
    ensures { result.now ≡ reason_of error word.now }
{
    match error {
        LineError::BadSession => b" is no session: sessions are 1 to 1024",
        LineError::BadName if has_name_bytes(word) => {
            b" is no name of 1 to 64 bytes, or stands here twice"
        }
        LineError::BadName => b" is no name: names have a-z, 0-9 and _",
        LineError::BadWord | LineError::LongLine | LineError::NotAscii => b" can't stand here",
    }
}

// Whether all bytes of a word may occur in the names of a table.
fn has_name_bytes(word: &[u8]) -> bool
    ensures { result ≡ list_all is_of_names word.now }
{
    for byte in word {
        if !is_of_names(*byte) {
            return false;
        }
    }
    true
}

// Whether a byte may occur in the names of a table.
fn is_of_names(byte: u8) -> bool
    ensures { result ≡ is_of_names byte }
{
    byte.is_ascii_lowercase() || byte.is_ascii_digit() || byte == b'_' || byte == b'.'
}
