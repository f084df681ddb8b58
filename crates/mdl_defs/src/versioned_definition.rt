//! A key's version and definition.
ghost use Rattle.std.specs.Prelude.{◌≡◌, IfOk, OnErr};
ghost use Rattle.mdl_key.specs.Refusals.{Refuses, RefusesJust};
ghost use Rattle.mdl_defs.specs.VersionedDefinitions.{nothing_yet, standing_fault, standing_after, suits, fits};

use crate::{Change, ChangeError, DefError, Definition, apply};
use mdl_key::Namespace;
use std::alloc::{AllocError, Global};

// The greatest version that a key can have.
const MOST_VERSIONS: u64 = 1_000_000;

/// A key's version, with its definition if there is one.
#[derive(Drop, PartialEq, Eq)]
pub struct VersionedDefinition {
    /// How often the definition was changed: at most 1,000,000 times.
    pub version: u64,
    /// The definition, if there is one.
    pub definition: Option<Definition>,
}

impl VersionedDefinition {
    /// Returns version 0, without a definition.
    pub fn new() -> VersionedDefinition
        ensures { result ≡ nothing_yet }
    {
        VersionedDefinition {
            version: 0,
            definition: None,
        }
    }

    /// Changes the definition of a key of this namespace, and returns the new version. `Drop` takes no memory.
    ///
    /// The key of a schema can have a schema as its definition, the key of a table a table, and other keys nothing.
    pub fn change(
        &mut self,
        alloc: Global,
        namespace: Namespace,
        change: &Change,
    ) -> Result<u64, ChangeError>
        ensures done { IfOk result (λ version. (self.new ≡ standing_after change.now self.old) × (version ≡ self.new.version)) }
        ensures unchanged { OnErr result (self.new ≡ self.old) }
        ensures refused { Refuses (standing_fault namespace change.now self.old) ChangeError.OutOfMemory result }
        ensures drop { change.now ≡ Change.Drop → RefusesJust (standing_fault namespace change.now self.old) result }
    {
        if self.version >= MOST_VERSIONS {
            return Err(ChangeError::VersionFull);
        }
        if !suits(namespace, change) {
            return Err(ChangeError::WrongKind);
        }
        match apply(alloc, &self.definition, change) {
            Ok(definition) => {
                self.version += 1;
                self.definition = definition;
                Ok(self.version)
            }
            Err(DefError::OutOfMemory) => Err(ChangeError::OutOfMemory),
            Err(fault) => Err(ChangeError::Def(fault)),
        }
    }
}

impl Clone for VersionedDefinition {
    ghost is_clone = { λ standing copy. copy ≡ standing };

    fn clone(&self) -> Result<VersionedDefinition, AllocError> {
        Ok(VersionedDefinition {
            version: self.version,
            definition: self.definition.clone()?,
        })
    }
}

// Whether a change is of a kind that a key of this namespace can have.
fn suits(namespace: Namespace, change: &Change) -> bool
    ensures { result ≡ suits namespace change.now }
{
    match change {
        Change::Create(definition) | Change::Put(definition) => fits(namespace, definition),
        Change::Drop | Change::AddColumn(_) | Change::DropColumn(_) => {
            matches!(namespace, Namespace::Schema | Namespace::Table)
        }
    }
}

// Whether a definition is of the kind that a key of this namespace can have.
fn fits(namespace: Namespace, definition: &Definition) -> bool
    ensures { result ≡ fits namespace definition.now }
{
    match (namespace, definition) {
        (Namespace::Schema, Definition::Schema) | (Namespace::Table, Definition::Table(_)) => true,
        _ => false,
    }
}
