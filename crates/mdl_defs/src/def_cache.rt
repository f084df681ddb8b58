//! A cache of definitions.
ghost use Rattle.std.specs.Prelude.{◌≡◌, ◌&&◌, nat_le, [], length, IfOk, OnOk, OnErr, Some, None, if◌then◌else◌, option_copied};
ghost use Rattle.std.specs.Borrow.{sem};
ghost use Rattle.mdl_key.specs.Refusals.{Refuses};
ghost use Rattle.mdl_defs.specs.Caches.{most_kept, kept_of, kept_first, IsCache};

use crate::Definition;
use lru::LruCache;
use std::alloc::{AllocError, AllocFailed, Global};
use std::marker::Model;
use std::num::NonZeroUsize;
use thiserror::Error;

/// The most definitions that a cache can keep.
pub const MOST_KEPT: u16 = 4096;

/// Why a cache can't be made.
#[derive(Clone, Copy, Debug, PartialEq, Eq, Error)]
pub enum CacheError {
    /// The capacity isn't 1 to [`MOST_KEPT`].
    #[error("a cache keeps 1 to 4096 definitions")]
    BadCapacity,
    /// Memory ran out.
    #[error("out of memory")]
    OutOfMemory,
}

/// A cache of definitions, each of one version of one place. It keeps the most recently used ones.
///
/// It takes memory as definitions are kept, not before.
///
/// After MySQL 5.7, the table definition cache (`table_definition_cache`) of `sql/table_cache.h`, which is shared by all sessions.
#[derive(Drop)]
pub struct DefCache {
    map: LruCache<(u16, u64), Definition>,
}

impl Model for DefCache {
    ghost use Rattle.mdl_defs.specs.Caches.{CacheView};

    ghost Value = { CacheView };

    ghost view = { λ cache. record { kept = cache.map.entries; capacity = cache.map.cap } };
}

impl DefCache {
    ghost use Rattle.mdl_defs.specs.CacheLends.{EndsLookedAt};

    /// Creates an empty cache of at most `capacity` definitions.
    pub fn new(alloc: Global, capacity: u16) -> Result<DefCache, CacheError>
        ensures made { IfOk result (λ cache. (cache.kept ≡ []) × (cache.capacity ≡ capacity)) }
        ensures refused { Refuses (if nat_le 1 capacity && nat_le capacity most_kept then None else Some CacheError.BadCapacity) CacheError.OutOfMemory result }
    {
        if capacity > MOST_KEPT {
            return Err(CacheError::BadCapacity);
        }
        let Some(capacity) = NonZeroUsize::new(usize::from(capacity)) else {
            return Err(CacheError::BadCapacity);
        };
        match LruCache::sparse(alloc, capacity) {
            Ok(map) => Ok(DefCache { map }),
            Err(AllocError) => Err(CacheError::OutOfMemory),
        }
    }

    /// Returns the definition that is kept of this version of this place, if there is one, and moves it to the front. This
    /// takes no memory.
    pub fn look(&mut self, place: u16, version: u64) -> Option<&Definition>
        ensures* order { sem 𝓛 (EndsLookedAt self.entry place version) }
        ensures found { option_copied result ≡ kept_of place version self.old.kept }
    {
        self.map.get(&(place, version))
    }

    /// Returns the definition that is kept of this version of this place, if there is one, and leaves the order as it is.
    pub fn peek(&self, place: u16, version: u64) -> Option<&Definition>
        ensures { option_copied result ≡ kept_of place version self.now.kept }
    {
        self.map.peek(&(place, version))
    }

    /// Returns how many definitions are kept.
    pub fn len(&self) -> usize
        ensures len { result ≡ length self.now.kept }
        ensures within { IsCache self.now }
    {
        self.map.len()
    }

    /// Keeps the definition of a version of a place, and puts it first. It replaces the one that was kept of that version. If
    /// there was none and the cache is full, the last one is dropped.
    pub fn keep(
        &mut self,
        place: u16,
        version: u64,
        definition: Definition,
    ) -> Result<(), AllocError>
        ensures kept { OnOk result (self.new ≡ record { kept = kept_first place version definition self.old; capacity = self.old.capacity }) }
        ensures unchanged { OnErr result (self.new ≡ self.old) }
    {
        match self.map.put((place, version), definition) {
            Ok(_) => Ok(()),
            Err(AllocFailed { .. }) => Err(AllocError),
        }
    }
}
