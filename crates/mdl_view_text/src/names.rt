//! The names of locks and sessions.
ghost use Rattle.std.specs.Prelude.{◌≡◌, ◌<◌, ◌/◌, ◌%◌, ◌++◌, ◌∷◌, [], map, IfOk, OnErr, OnOk};
ghost use Rattle.std.specs.Option.{option_map};
ghost use Rattle.mdl_view_text.specs.Names.{book_text, has_connection, hex_digit, key_text, knows_connections, lock_name, named_text, object_text, owner_of, printed, printed_byte, shown_byte, space_text};

use mdl_book::Book;
use mdl_key::{Key, Namespace};
use mdl_lines::push;
use mdl_lock_rows::{ObjectType, Owner};
use std::alloc::{AllocError, Global};
use std::marker::Model;

/// The names of locks, by their indices from 0 on, and what a server's rows say of the sessions 1, 2, and so on.
#[derive(Drop)]
pub struct Names {
    locks: Vec<Vec<u8>>,
    owners: Vec<Owner>,
}

impl Model for Names {
    ghost use Rattle.std.specs.Prelude.{map};
    ghost use Rattle.mdl_view_text.specs.Names.{NamesView};

    ghost Value = { NamesView };

    ghost view = { λ names. record { locks = map (λ name. name.items) names.locks.items; owners = names.owners.items } };
}

impl Names {
    /// Returns no names of locks, and what rows say of the sessions. Of a script's sessions no row says anything: `owners` is empty, and a session
    /// is printed by its own number.
    pub fn new(alloc: Global, owners: Vec<Owner>) -> Names
        ensures { result ≡ record { locks = []; owners = owners.items } }
    {
        Names {
            locks: Vec::new(alloc),
            owners,
        }
    }

    /// Adds the name of the lock with the next index.
    pub fn add_lock(&mut self, name: Vec<u8>) -> Result<(), AllocError>
        ensures added { OnOk result (self.new ≡ record self.old { locks = self.old.locks ++ name.items ∷ [] }) }
        ensures unchanged { OnErr result (self.new ≡ self.old) }
    {
        match self.locks.push(name) {
            Ok(()) => Ok(()),
            Err(_) => Err(AllocError),
        }
    }

    /// Returns the name of the lock with this index, or an empty one if it isn't known.
    pub fn lock(&self, place: usize) -> &[u8]
        ensures { result.now ≡ lock_name self.now place }
    {
        match self.locks.get(place) {
            Some(name) => name.as_slice(),
            None => b"".as_slice(),
        }
    }

    /// Returns what rows say of a session, if they say anything. No session has the number 0.
    pub fn owner(&self, session: usize) -> Option<&Owner>
        ensures { option_map (λ owner. owner.now) result ≡ owner_of self.now session }
    {
        if session == 0 {
            return None;
        }
        self.owners.get(session - 1)
    }

    /// Returns what rows say of the sessions.
    pub(crate) fn owners(&self) -> &[Owner]
        ensures { result.now ≡ self.now.owners }
    {
        self.owners.as_slice()
    }
}

/// Whether rows have the numbers of connections, which `KILL` takes.
pub(crate) fn knows_connections(names: &Names) -> bool
    ensures { result ≡ knows_connections names.now }
{
    names.owners().iter().any(|owner| has_connection(owner))
}

// Whether a session's row has the number of its connection.
fn has_connection(owner: &Owner) -> bool
    ensures { result ≡ has_connection owner.now }
{
    owner.connection().is_some()
}

/// Returns the name of the lock of an object: `TABLE shop.orders`, or `USER n` for a user-level lock. A backslash or a dot in a name has a
/// backslash before it, and a control byte is printed as `\x` and two digits. Names that the type doesn't have are left out.
pub fn key_text(
    alloc: Global,
    object_type: ObjectType,
    schema: &[u8],
    name: &[u8],
) -> Result<Vec<u8>, AllocError>
    ensures { IfOk result (λ text. text.items ≡ key_text object_type schema.now name.now) }
{
    match object_type {
        ObjectType::Global => word(alloc, b"GLOBAL"),
        ObjectType::Commit => word(alloc, b"COMMIT"),
        ObjectType::Backup => word(alloc, b"BACKUP"),
        ObjectType::BackupLock => word(alloc, b"BACKUP LOCK"),
        ObjectType::Schema => named_text(alloc, b"SCHEMA ", schema),
        ObjectType::Tablespace => named_text(alloc, b"TABLESPACE ", name),
        ObjectType::UserLevelLock => named_text(alloc, b"USER ", name),
        ObjectType::Table => object_text(alloc, b"TABLE ", schema, name),
        ObjectType::Function => object_text(alloc, b"FUNCTION ", schema, name),
        ObjectType::Procedure => object_text(alloc, b"PROCEDURE ", schema, name),
        ObjectType::Trigger => object_text(alloc, b"TRIGGER ", schema, name),
        ObjectType::Event => object_text(alloc, b"EVENT ", schema, name),
        ObjectType::LockingService => object_text(alloc, b"LOCKING SERVICE ", schema, name),
        ObjectType::PackageBody => object_text(alloc, b"PACKAGE BODY ", schema, name),
    }
}

/// Returns the names of the locks of these books. Sessions are printed by their own numbers.
pub fn names_of(alloc: Global, books: &[Book]) -> Result<Names, AllocError>
    ensures { IfOk result (λ names. names ≡ record { locks = map book_text books.now; owners = [] }) }
{
    let mut names = Names::new(alloc, Vec::new(alloc));
    for book in books {
        names.add_lock(text_of_key(alloc, book.key())?)?;
    }
    Ok(names)
}

// The name of the lock of a book's key.
fn text_of_key(alloc: Global, key: &Key) -> Result<Vec<u8>, AllocError>
    ensures { IfOk result (λ text. text.items ≡ space_text key.now.namespace key.now.schema key.now.table) }
{
    space_text(
        alloc,
        key.namespace(),
        key.schema_name().as_bytes(),
        key.table_name().as_bytes(),
    )
}

// The name of a lock whose schema and table have these names. A user-level lock's name is in place of the schema's.
fn space_text(
    alloc: Global,
    namespace: Namespace,
    schema: &[u8],
    table: &[u8],
) -> Result<Vec<u8>, AllocError>
    ensures { IfOk result (λ text. text.items ≡ space_text namespace schema.now table.now) }
{
    match namespace {
        Namespace::Global => key_text(alloc, ObjectType::Global, &[], &[]),
        Namespace::Commit => key_text(alloc, ObjectType::Commit, &[], &[]),
        Namespace::Schema => key_text(alloc, ObjectType::Schema, schema, &[]),
        Namespace::Table => key_text(alloc, ObjectType::Table, schema, table),
        Namespace::UserLevelLock => key_text(alloc, ObjectType::UserLevelLock, &[], schema),
    }
}

// A word alone.
fn word(alloc: Global, word: &[u8]) -> Result<Vec<u8>, AllocError>
    ensures { IfOk result (λ text. text.items ≡ word.now) }
{
    let mut out = Vec::new(alloc);
    push(&mut out, word)?;
    Ok(out)
}

// The name of the lock of something with one name.
fn named_text(alloc: Global, object_type: &[u8], name: &[u8]) -> Result<Vec<u8>, AllocError>
    ensures { IfOk result (λ text. text.items ≡ named_text object_type.now name.now) }
{
    let mut out = Vec::new(alloc);
    push(&mut out, object_type)?;
    push_name(&mut out, name)?;
    Ok(out)
}

// The name of the lock of an object of a schema.
fn object_text(
    alloc: Global,
    object_type: &[u8],
    schema: &[u8],
    name: &[u8],
) -> Result<Vec<u8>, AllocError>
    ensures { IfOk result (λ text. text.items ≡ object_text object_type.now schema.now name.now) }
{
    let mut out = Vec::new(alloc);
    push(&mut out, object_type)?;
    push_name(&mut out, schema)?;
    push(&mut out, b".")?;
    push_name(&mut out, name)?;
    Ok(out)
}

/// Appends a name, as it is printed.
pub(crate) fn push_name(out: &mut Vec<u8>, name: &[u8]) -> Result<(), AllocError>
    ensures { OnOk result (out.new.items ≡ out.old.items ++ printed name.now) }
{
    for byte in name {
        push_byte(out, *byte)?;
    }
    Ok(())
}

// Appends a byte of a name, as it is printed.
fn push_byte(out: &mut Vec<u8>, byte: u8) -> Result<(), AllocError>
    ensures { OnOk result (out.new.items ≡ out.old.items ++ printed_byte byte) }
{
    if byte == b'.' {
        return push(out, b"\\.");
    }
    push_shown(out, byte)
}

/// Appends a byte, as it is printed: a backslash as two, and a control byte by its digits.
pub(crate) fn push_shown(out: &mut Vec<u8>, byte: u8) -> Result<(), AllocError>
    ensures { OnOk result (out.new.items ≡ out.old.items ++ shown_byte byte) }
{
    if byte == b'\\' {
        push(out, b"\\\\")
    } else if byte < 32 || byte == 127 {
        push_escaped(out, byte)
    } else {
        out.push(byte)?;
        Ok(())
    }
}

// Appends a control byte, as it is printed.
fn push_escaped(out: &mut Vec<u8>, byte: u8) -> Result<(), AllocError>
    ensures { OnOk result (out.new.items ≡ out.old.items ++ (92 ∷ 120 ∷ hex_digit (byte / 16) ∷ hex_digit (byte % 16) ∷ [])) }
{
    push(out, b"\\x")?;
    out.push(hex_digit(byte / 16))?;
    out.push(hex_digit(byte % 16))?;
    Ok(())
}

/// Returns half a byte as a hexadecimal digit.
pub(crate) fn hex_digit(half: u8) -> u8
    requires { half < 16 }
    ensures { result ≡ hex_digit half }
{
    if half < 10 {
        b'0' + half
    } else {
        b'a' + (half - 10)
    }
}
