//! Rows that are left out.
ghost use Rattle.std.specs.Prelude.{◌≡◌, ◌++◌, IfOk};
ghost use Rattle.std.proofs.Common.{rules};
ghost use Rattle.std.specs.Cmp.Rules.{comparing, hashing};
ghost use Rattle.std.specs.Hash as fed;
ghost use Rattle.mdl_lock_rows.specs.Classes.{same_class, class_of};

use std::alloc::{AllocError, Global};
use std::hash::{Hash, Hasher};
use std::marker::Model;

/// The object type and the lock type of rows that are left out, as they are in the text.
#[derive(Drop)]
pub struct RowClass {
    object_type: Vec<u8>,
    lock_type: Vec<u8>,
}

impl Model for RowClass {
    ghost use Rattle.mdl_lock_rows.specs.Classes.{ClassName};

    ghost Value = { ClassName };

    ghost view = { λ class. record { object_type = class.object_type.items; lock_type = class.lock_type.items } };
}

impl RowClass {
    /// Returns the class of rows of this object type and this lock type.
    pub(crate) fn new(
        alloc: Global,
        object_type: &[u8],
        lock_type: &[u8],
    ) -> Result<RowClass, AllocError>
        ensures { IfOk result (λ class. class ≡ class_of object_type.now lock_type.now) }
    {
        Ok(RowClass {
            object_type: Vec::from_slice(alloc, object_type)?,
            lock_type: Vec::from_slice(alloc, lock_type)?,
        })
    }

    /// Returns the object type.
    pub fn object_type(&self) -> &[u8]
        ensures { result.now ≡ self.now.object_type }
    {
        self.object_type.as_slice()
    }

    /// Returns the lock type.
    pub fn lock_type(&self) -> &[u8]
        ensures { result.now ≡ self.now.lock_type }
    {
        self.lock_type.as_slice()
    }
}

impl Clone for RowClass {
    ghost is_clone = { λ class copy. copy ≡ class };

    fn clone(&self) -> Result<RowClass, AllocError> {
        Ok(RowClass {
            object_type: self.object_type.clone()?,
            lock_type: self.lock_type.clone()?,
        })
    }
}

impl PartialEq for RowClass {
    ghost eq = { same_class };

    ghost laws = { Prim.search (comparing, rules) depth 9 };

    fn eq(&self, other: &RowClass) -> bool {
        self.object_type() == other.object_type() && self.lock_type() == other.lock_type()
    }
}

impl Eq for RowClass {
    ghost laws = { Prim.search (comparing, rules) depth 9 };
}

impl Hash for RowClass {
    ghost hash_input = { λ class. fed.slice fed.u8 class.object_type ++ fed.slice fed.u8 class.lock_type };

    ghost respects_eq = { Prim.search (hashing, rules) depth 9 };

    fn hash<H: Hasher>(&self, state: &mut H) {
        self.object_type().hash(state);
        self.lock_type().hash(state);
    }
}

/// The rows of an object type and a lock type that are left out.
#[derive(Drop)]
pub struct LeftOut {
    /// The class of the rows.
    pub class: RowClass,
    /// The number of rows.
    pub count: usize,
    /// How many of them wait.
    pub waiting: usize,
}
