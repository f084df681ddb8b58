//! Definitions and their changes.
mod caches;
mod columns;
mod standings;

use crate::base::rows::{Story, are_told_so};
use columns::{Names, columns};
use mdl_defs::{Change, Column, DefError, Definition, apply};
use std::alloc::Global;

// A definition to make: a schema, or a table with these columns.
#[derive(Clone, Copy)]
enum What {
    Schema,
    Table(Names),
}

// A change to make.
#[derive(Clone, Copy)]
enum Act {
    Create(What),
    Drop,
    Put(What),
    Add(&'static str),
    Lose(&'static str),
}

// Tables of some columns, and of many.
const NONE: What = What::Table(Names::These(&[]));

const X: What = What::Table(Names::These(&["x"]));

const Y: What = What::Table(Names::These(&["y"]));

const X_Y: What = What::Table(Names::These(&["x", "y"]));

const Y_X: What = What::Table(Names::These(&["y", "x"]));

const Y_Y: What = What::Table(Names::These(&["y", "y"]));

const C63: What = What::Table(Names::Numbered(63, &[]));

const C64: What = What::Table(Names::Numbered(64, &[]));

const C65: What = What::Table(Names::Numbered(65, &[]));

// A definition, if there is one, a change, and the definition after it or the refusal.
type Row = (Option<What>, Act, Result<Option<What>, DefError>);

const CREATED: &[Row] = &[
    (None, Act::Create(What::Schema), Ok(Some(What::Schema))),
    (None, Act::Create(X), Ok(Some(X))),
    (None, Act::Create(Y_X), Ok(Some(Y_X))),
    (None, Act::Create(C64), Ok(Some(C64))),
    (None, Act::Create(C65), Err(DefError::ManyColumns)),
    (
        None,
        Act::Create(What::Table(Names::Numbered(65, &["c7"]))),
        Err(DefError::DuplicateColumn),
    ),
    (
        None,
        Act::Create(What::Table(Names::These(&["x", "y", "x"]))),
        Err(DefError::DuplicateColumn),
    ),
    (None, Act::Create(NONE), Err(DefError::WrongKind)),
    (
        Some(What::Schema),
        Act::Create(What::Schema),
        Err(DefError::Exists),
    ),
    (Some(What::Schema), Act::Create(X), Err(DefError::Exists)),
    (Some(What::Schema), Act::Create(NONE), Err(DefError::Exists)),
    (Some(X), Act::Create(X), Err(DefError::Exists)),
    (Some(X), Act::Create(Y_Y), Err(DefError::Exists)),
    (Some(X), Act::Create(C65), Err(DefError::Exists)),
];

const DROPPED_AND_PUT: &[Row] = &[
    (None, Act::Drop, Err(DefError::Missing)),
    (Some(What::Schema), Act::Drop, Ok(None)),
    (Some(X_Y), Act::Drop, Ok(None)),
    (None, Act::Put(What::Schema), Ok(Some(What::Schema))),
    (None, Act::Put(X), Ok(Some(X))),
    (
        Some(What::Schema),
        Act::Put(What::Schema),
        Ok(Some(What::Schema)),
    ),
    (Some(What::Schema), Act::Put(X), Ok(Some(X))),
    (Some(X), Act::Put(What::Schema), Ok(Some(What::Schema))),
    (
        Some(X_Y),
        Act::Put(What::Table(Names::These(&["z", "x"]))),
        Ok(Some(What::Table(Names::These(&["z", "x"])))),
    ),
    (Some(X), Act::Put(C64), Ok(Some(C64))),
    (Some(X), Act::Put(C65), Err(DefError::ManyColumns)),
    (
        Some(X),
        Act::Put(What::Table(Names::Numbered(65, &["c65"]))),
        Err(DefError::DuplicateColumn),
    ),
    (Some(X), Act::Put(Y_Y), Err(DefError::DuplicateColumn)),
    (Some(X), Act::Put(NONE), Err(DefError::WrongKind)),
];

const GAINED_AND_LOST: &[Row] = &[
    (None, Act::Add("x"), Err(DefError::Missing)),
    (Some(What::Schema), Act::Add("x"), Err(DefError::WrongKind)),
    (Some(X), Act::Add("x"), Err(DefError::DuplicateColumn)),
    (Some(X_Y), Act::Add("y"), Err(DefError::DuplicateColumn)),
    (
        Some(X),
        Act::Add("a"),
        Ok(Some(What::Table(Names::These(&["x", "a"])))),
    ),
    (
        Some(Y_X),
        Act::Add("b"),
        Ok(Some(What::Table(Names::These(&["y", "x", "b"])))),
    ),
    (Some(C63), Act::Add("c64"), Ok(Some(C64))),
    (Some(C64), Act::Add("c65"), Err(DefError::ManyColumns)),
    (Some(C64), Act::Add("c9"), Err(DefError::DuplicateColumn)),
    (None, Act::Lose("x"), Err(DefError::Missing)),
    (Some(What::Schema), Act::Lose("x"), Err(DefError::WrongKind)),
    (Some(X_Y), Act::Lose("z"), Err(DefError::NoColumn)),
    (Some(X), Act::Lose("z"), Err(DefError::NoColumn)),
    (Some(X), Act::Lose("x"), Err(DefError::LastColumn)),
    (Some(X_Y), Act::Lose("x"), Ok(Some(Y))),
    (
        Some(What::Table(Names::These(&["x", "y", "z"]))),
        Act::Lose("y"),
        Ok(Some(What::Table(Names::These(&["x", "z"])))),
    ),
    (Some(C64), Act::Lose("c64"), Ok(Some(C63))),
];

// Returns the definition, if there was memory for it.
fn definition(alloc: Global, what: What) -> Option<Definition> {
    match what {
        What::Schema => Some(Definition::Schema),
        What::Table(names) => match columns(alloc, names) {
            Some(columns) => Some(Definition::Table(columns)),
            None => None,
        },
    }
}

fn standing(alloc: Global, what: Option<What>) -> Option<Definition> {
    match what {
        Some(what) => definition(alloc, what),
        None => None,
    }
}

// Returns the change, if there was memory for it.
fn new_change(alloc: Global, act: Act) -> Option<Change> {
    match act {
        Act::Drop => Some(Change::Drop),
        Act::Create(what) => match definition(alloc, what) {
            Some(definition) => Some(Change::Create(definition)),
            None => None,
        },
        Act::Put(what) => match definition(alloc, what) {
            Some(definition) => Some(Change::Put(definition)),
            None => None,
        },
        Act::Add(name) => match Column::new(alloc, name) {
            Ok(column) => Some(Change::AddColumn(column)),
            Err(_) => None,
        },
        Act::Lose(name) => match Column::new(alloc, name) {
            Ok(column) => Some(Change::DropColumn(column)),
            Err(_) => None,
        },
    }
}

// Returns a copy of the change.
fn change(alloc: Global, act: Act) -> Option<Change> {
    let change = new_change(alloc, act)?;
    let copy = change.clone().ok();
    drop(change);
    copy
}

// Returns the definition after a change, or the refusal.
fn outcome(alloc: Global, before: Option<What>, act: Act) -> Result<Option<Definition>, DefError> {
    let Some(change) = change(alloc, act) else {
        return Err(DefError::OutOfMemory);
    };
    let standing = standing(alloc, before);
    let outcome = apply(alloc, &standing, &change);
    drop(standing);
    drop(change);
    outcome
}

// Whether this is the wanted definition.
fn is_wanted(alloc: Global, found: &Option<Definition>, want: Option<What>) -> bool {
    let wanted = standing(alloc, want);
    let is_so = *found == wanted;
    drop(wanted);
    is_so
}

// Whether a change of a definition gives what its row says.
fn is_changed_so(alloc: Global, (before, act, want): Row) -> bool {
    let outcome = outcome(alloc, before, act);
    let is_so = match (&outcome, want) {
        (Ok(after), Ok(wanted)) => is_wanted(alloc, after, wanted),
        (Err(cause), Err(wanted)) => *cause == wanted,
        _ => false,
    };
    drop(outcome);
    is_so
}

// What rows show, and the rows.
struct Changed(&'static str, &'static [Row]);

impl Story for Changed {
    fn name(&self) -> &'static str {
        self.0
    }

    fn first_wrong(&self, alloc: Global) -> Option<usize> {
        for (place, row) in self.1.iter().enumerate() {
            if !is_changed_so(alloc, *row) {
                return Some(place);
            }
        }
        None
    }
}

const CHANGED: &[Changed] = &[
    Changed("created", CREATED),
    Changed("dropped and put", DROPPED_AND_PUT),
    Changed("gained and lost", GAINED_AND_LOST),
];

#[test]
fn changes_what_stands(rt: HostRuntime) {
    are_told_so(&rt, rt.alloc(), CHANGED);
}
