//! Names.
ghost use Rattle.std.specs.Prelude.{◌≡◌, Ok, IfOk};
ghost use Rattle.mdl_key.specs.Words.{name_fault, Refuses};

use mdl_key::{KeyError, check_name};
use std::alloc::{AllocError, Global};
use std::marker::Model;

/// The name of a savepoint or a schema: 1 to [`LONGEST_NAME`](mdl_key::LONGEST_NAME) bytes of `a-z 0-9 _`.
#[derive(Drop)]
pub struct Name {
    text: String,
}

impl Model for Name {
    ghost use Rattle.std.specs.Prelude.{List, ℕ};
    ghost use Rattle.std.specs.String.{string_bytes};

    ghost Value = { List ℕ };

    ghost view = { λ name. string_bytes name.text };
}

impl Name {
    /// Returns the name with this text. A text that isn't a name is refused as in a key.
    pub fn new(alloc: Global, text: &str) -> Result<Name, KeyError>
        ensures made { IfOk result (λ name. name ≡ text.now) }
        ensures refused { Refuses (name_fault text.now) KeyError.OutOfMemory result }
    {
        check_name(text)?;
        match String::from_str(alloc, text) {
            Ok(text) => Ok(Name { text }),
            Err(AllocError) => Err(KeyError::OutOfMemory),
        }
    }

    /// Returns the name's text.
    pub fn as_str(&self) -> &str
        ensures { result.now ≡ self.now }
    {
        self.text.as_str()
    }
}

impl Clone for Name {
    ghost is_clone = { λ name copy. copy ≡ name };

    fn clone(&self) -> Result<Name, AllocError> {
        Ok(Name {
            text: self.text.clone()?,
        })
    }
}
