//! The definition in a book, change by change.
use super::{Act, What, X, X_Y, change, definition};
use crate::base::keys::names::{Name, key_of};
use crate::base::rows::{Story, are_told_so, is_right};
use mdl_book::Book;
use mdl_defs::{ChangeError, DefError, Definition, VersionedDefinition};
use mdl_key::Namespace;
use std::alloc::Global;

// A change, the version after it or the refusal, and the definition afterwards.
type Step = (Act, Result<u64, ChangeError>, Option<What>);

const UNDER_A_TABLE: &[Step] = &[
    (Act::Drop, Err(ChangeError::Def(DefError::Missing)), None),
    (Act::Create(What::Schema), Err(ChangeError::WrongKind), None),
    (Act::Create(X), Ok(1), Some(X)),
    (
        Act::Create(X_Y),
        Err(ChangeError::Def(DefError::Exists)),
        Some(X),
    ),
    (
        Act::Create(What::Schema),
        Err(ChangeError::WrongKind),
        Some(X),
    ),
    (Act::Add("y"), Ok(2), Some(X_Y)),
    (
        Act::Add("y"),
        Err(ChangeError::Def(DefError::DuplicateColumn)),
        Some(X_Y),
    ),
    (Act::Drop, Ok(3), None),
    (Act::Put(X_Y), Ok(4), Some(X_Y)),
    (Act::Lose("y"), Ok(5), Some(X)),
    (
        Act::Lose("x"),
        Err(ChangeError::Def(DefError::LastColumn)),
        Some(X),
    ),
    (Act::Put(X), Ok(6), Some(X)),
];

const UNDER_A_SCHEMA: &[Step] = &[
    (Act::Put(X), Err(ChangeError::WrongKind), None),
    (Act::Create(What::Schema), Ok(1), Some(What::Schema)),
    (
        Act::Add("x"),
        Err(ChangeError::Def(DefError::WrongKind)),
        Some(What::Schema),
    ),
    (Act::Put(What::Schema), Ok(2), Some(What::Schema)),
    (Act::Drop, Ok(3), None),
];

const UNDER_OTHERS: &[Step] = &[
    (Act::Create(What::Schema), Err(ChangeError::WrongKind), None),
    (Act::Put(X), Err(ChangeError::WrongKind), None),
    (Act::Drop, Err(ChangeError::WrongKind), None),
    (Act::Add("x"), Err(ChangeError::WrongKind), None),
];

fn is_copied(standing: &VersionedDefinition) -> bool {
    let Ok(copy) = standing.clone() else {
        return false;
    };
    let is_so = copy == *standing;
    drop(copy);
    is_so
}

// Whether a book has this version and definition, and a copy of them is equal.
fn is_read(book: &Book, version: u64, wanted: &Option<Definition>) -> bool {
    let Ok(standing) = book.read() else {
        return false;
    };
    let is_so = standing.version == version
        && standing.definition == *wanted
        && is_copied(&standing);
    drop(standing);
    is_so
}

// Whether a book has this definition and this version, and reads them.
fn stands(alloc: Global, book: &Book, version: u64, what: Option<What>) -> bool {
    let wanted = super::standing(alloc, what);
    let is_so = is_read(book, version, &wanted)
        && book.definition() == wanted.as_ref()
        && book.version() == version;
    drop(wanted);
    is_so
}

// Makes a change. Whether its answer, and the definition afterwards, are those of its row.
fn goes_so(alloc: Global, book: &mut Book, (act, want, what): Step) -> bool {
    let before = book.version();
    let answer = match change(alloc, act) {
        Some(change) => {
            let answer = book.redefine(&change);
            drop(change);
            answer
        }
        None => Err(ChangeError::OutOfMemory),
    };
    answer == want && stands(alloc, book, want.unwrap_or(before), what)
}

// Returns the index of the first wrong step.
fn first_wrong_of(alloc: Global, book: &mut Book, steps: &[Step]) -> Option<usize> {
    for (place, step) in steps.iter().enumerate() {
        if !goes_so(alloc, book, *step) {
            return Some(place);
        }
    }
    None
}

// The name of a lock, and the calls of its book.
struct BookOf(&'static str, Name, &'static [Step]);

impl Story for BookOf {
    fn name(&self) -> &'static str {
        self.0
    }

    fn first_wrong(&self, alloc: Global) -> Option<usize> {
        let Ok(key) = key_of(alloc, self.1) else {
            return Some(0);
        };
        let mut book = Book::new(alloc, key);
        let wrong = first_wrong_of(alloc, &mut book, self.2);
        drop(book);
        wrong
    }
}

const BOOKS: &[BookOf] = &[
    BookOf("table", (Namespace::Table, "test", "t"), UNDER_A_TABLE),
    BookOf("schema", (Namespace::Schema, "test", ""), UNDER_A_SCHEMA),
    BookOf("commit", (Namespace::Commit, "", ""), UNDER_OTHERS),
    BookOf(
        "user-level lock",
        (Namespace::UserLevelLock, "t", ""),
        UNDER_OTHERS,
    ),
];

#[test]
fn books_keep_what_stands(rt: HostRuntime) {
    are_told_so(&rt, rt.alloc(), BOOKS);
}

// The last possible change, and changes that come too late.
const LATE: &[(Act, Result<u64, ChangeError>)] = &[
    (Act::Lose("x"), Ok(1_000_000)),
    (Act::Drop, Err(ChangeError::VersionFull)),
    (Act::Put(X), Err(ChangeError::VersionFull)),
    (Act::Create(What::Schema), Err(ChangeError::VersionFull)),
    (Act::Lose("z"), Err(ChangeError::VersionFull)),
];

// Whether a change of a table gives this answer.
fn answers(
    alloc: Global,
    standing: &mut VersionedDefinition,
    act: Act,
    want: Result<u64, ChangeError>,
) -> bool {
    let Some(change) = change(alloc, act) else {
        return false;
    };
    let is_so = standing.change(alloc, Namespace::Table, &change) == want;
    drop(change);
    is_so
}

#[test]
fn versions_have_an_end(rt: HostRuntime) {
    let mut standing = VersionedDefinition {
        definition: definition(rt.alloc(), X_Y),
        version: 999_999,
    };
    for (place, (act, want)) in LATE.iter().enumerate() {
        is_right(&rt, place, answers(rt.alloc(), &mut standing, *act, *want));
    }
}
