//! A key's version and definition, stored outside of its book.
ghost use Rattle.std.specs.Prelude.{◌≡◌, IfOk, OnErr};
ghost use Rattle.std.specs.Option.{option_copied};
ghost use Rattle.mdl_key.specs.Refusals.{Refuses, RefusesJust};
ghost use Rattle.mdl_defs.specs.VersionedDefinitions.{nothing_yet, standing_fault, standing_after};

use mdl_defs::{Change, ChangeError, Definition, VersionedDefinition};
use mdl_key::Namespace;
use std::alloc::{AllocError, Global};
use std::marker::Model;

/// A key's version and definition. They are boxed, so that a book stays small, and only once they are first changed.
#[derive(Drop)]
pub(crate) struct KeptStanding {
    alloc: Global,
    standing: Option<Box<VersionedDefinition>>,
}

impl Model for KeptStanding {
    ghost use Rattle.mdl_defs.specs.declared.versioned_definition.VersionedDefinition.{VersionedDefinition};
    ghost use Rattle.mdl_book.specs.KeptStandings.{standing_of};

    ghost Value = { VersionedDefinition };

    ghost view = { λ kept. standing_of kept.standing };
}

impl KeptStanding {
    /// Returns version 0, without a definition. It takes no memory.
    pub(crate) fn new(alloc: Global) -> KeptStanding
        ensures { result ≡ nothing_yet }
    {
        KeptStanding {
            alloc,
            standing: None,
        }
    }

    /// Returns how often the definition was changed.
    pub(crate) fn version(&self) -> u64
        ensures { result ≡ self.now.version }
    {
        match &self.standing {
            Some(standing) => standing.version,
            None => 0,
        }
    }

    /// Returns the definition, if there is one.
    pub(crate) fn definition(&self) -> Option<&Definition>
        ensures { option_copied result ≡ self.now.definition }
    {
        match &self.standing {
            Some(standing) => standing.definition.as_ref(),
            None => None,
        }
    }

    /// Returns a copy of the version and the definition.
    pub(crate) fn read(&self) -> Result<VersionedDefinition, AllocError>
        ensures { IfOk result (λ standing. standing ≡ self.now) }
    {
        match &self.standing {
            Some(standing) => Ok((**standing).clone()?),
            None => Ok(VersionedDefinition::new()),
        }
    }

    /// Changes the definition of a key of this namespace, and returns the new version. `Drop` takes no memory.
    pub(crate) fn change(
        &mut self,
        namespace: Namespace,
        change: &Change,
    ) -> Result<u64, ChangeError>
        ensures done { IfOk result (λ version. (self.new ≡ standing_after change.now self.old) × (version ≡ self.new.version)) }
        ensures unchanged { OnErr result (self.new ≡ self.old) }
        ensures refused { Refuses (standing_fault namespace change.now self.old) ChangeError.OutOfMemory result }
        ensures drop { change.now ≡ Change.Drop → RefusesJust (standing_fault namespace change.now self.old) result }
    {
        if let Some(standing) = &mut self.standing {
            return standing.change(self.alloc, namespace, change);
        }
        let mut standing = VersionedDefinition::new();
        let version = standing.change(self.alloc, namespace, change)?;
        match Box::new(self.alloc, standing) {
            Ok(standing) => {
                self.standing = Some(standing);
                Ok(version)
            }
            Err(_) => Err(ChangeError::OutOfMemory),
        }
    }
}
