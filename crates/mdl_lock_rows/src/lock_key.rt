//! The keys of a server's locks.
ghost use Rattle.std.specs.Prelude.{◌≡◌, ◌++◌, IfOk};
ghost use Rattle.std.proofs.Common.{rules};
ghost use Rattle.std.specs.Cmp.Rules.{comparing, hashing};
ghost use Rattle.std.specs.Hash as fed;
ghost use Rattle.mdl_lock_rows.specs.Keys.{same_key};

use crate::object_type::ObjectType;
use std::alloc::{AllocError, Global};
use std::hash::{Hash, Hasher};
use std::marker::Model;

/// What is locked: an object type, and the names of the object. A name may have any bytes, and is empty if there is none.
#[derive(Drop)]
pub struct LockKey {
    object_type: ObjectType,
    schema: Vec<u8>,
    name: Vec<u8>,
}

impl Model for LockKey {
    ghost use Rattle.mdl_lock_rows.specs.Keys.{KeyNames};

    ghost Value = { KeyNames };

    ghost view = { λ key. record { object_type = key.object_type; schema = key.schema.items; name = key.name.items } };
}

impl LockKey {
    /// Returns the key of this object type and these names.
    pub(crate) fn new(
        alloc: Global,
        object_type: ObjectType,
        schema: &[u8],
        name: &[u8],
    ) -> Result<LockKey, AllocError>
        ensures { IfOk result (λ key. key ≡ record { object_type = object_type; schema = schema.now; name = name.now }) }
    {
        Ok(LockKey {
            object_type,
            schema: Vec::from_slice(alloc, schema)?,
            name: Vec::from_slice(alloc, name)?,
        })
    }

    /// Returns the object type.
    pub fn object_type(&self) -> ObjectType
        ensures { result ≡ self.now.object_type }
    {
        self.object_type
    }

    /// Returns the schema's name.
    pub fn schema(&self) -> &[u8]
        ensures { result.now ≡ self.now.schema }
    {
        self.schema.as_slice()
    }

    /// Returns the object's name. That of a user-level lock is here.
    pub fn name(&self) -> &[u8]
        ensures { result.now ≡ self.now.name }
    {
        self.name.as_slice()
    }
}

impl Clone for LockKey {
    ghost is_clone = { λ key copy. copy ≡ key };

    fn clone(&self) -> Result<LockKey, AllocError> {
        Ok(LockKey {
            object_type: self.object_type,
            schema: self.schema.clone()?,
            name: self.name.clone()?,
        })
    }
}

impl PartialEq for LockKey {
    ghost eq = { same_key };

    ghost laws = { Prim.search (comparing, rules) depth 9 };

    fn eq(&self, other: &LockKey) -> bool {
        self.object_type == other.object_type
            && self.schema() == other.schema()
            && self.name() == other.name()
    }
}

impl Eq for LockKey {
    ghost laws = { Prim.search (comparing, rules) depth 9 };
}

/// A key is hashed by the bytes of its names alone.
impl Hash for LockKey {
    ghost hash_input = { λ key. fed.slice fed.u8 key.schema ++ fed.slice fed.u8 key.name };

    ghost respects_eq = { Prim.search (hashing, rules) depth 9 };

    fn hash<H: Hasher>(&self, state: &mut H) {
        self.schema().hash(state);
        self.name().hash(state);
    }
}
