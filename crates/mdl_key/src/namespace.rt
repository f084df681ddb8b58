//! The namespaces of keys, and how the keys of each are locked.
ghost use Rattle.std.specs.Prelude.{◌≡◌};
ghost use Rattle.mdl_key.specs.Modes.{kind_of, is_mode_of};

use crate::Mode;

/// The namespace of a key. Keys are ordered by it first, in this order.
///
/// After MySQL 5.7, `MDL_key::enum_mdl_namespace` of `sql/mdl.h`.
#[derive(Clone, Copy, Debug, PartialEq, Eq, PartialOrd, Ord, Hash)]
pub enum Namespace {
    /// The one key of the global read lock.
    Global,
    /// Schemas, each by its name.
    Schema,
    /// Tables, each by the name of its schema and its own name.
    Table,
    /// The one key that commits take.
    Commit,
    /// User-level locks, each by its name.
    UserLevelLock,
}

impl Namespace {
    /// Returns the kind of this namespace's locks.
    pub fn kind(self) -> Kind
        ensures { result ≡ kind_of self }
    {
        match self {
            Namespace::Table | Namespace::UserLevelLock => Kind::Object,
            Namespace::Global | Namespace::Schema | Namespace::Commit => Kind::Scoped,
        }
    }
}

/// The kind of a lock: each has modes and matrices of its own.
#[derive(Clone, Copy, Debug, PartialEq, Eq, PartialOrd, Ord, Hash)]
pub enum Kind {
    /// A scope that contains other things, as a schema contains tables. It is locked in IX, S and X.
    Scoped,
    /// A single thing, such as a table. It is locked in all modes but IX.
    Object,
}

impl Kind {
    /// Whether locks of this kind use the mode.
    pub fn has_mode(self, mode: Mode) -> bool
        ensures { result ≡ is_mode_of self mode }
    {
        match self {
            Kind::Scoped => matches!(mode, Mode::IX | Mode::S | Mode::X),
            Kind::Object => mode != Mode::IX,
        }
    }
}
