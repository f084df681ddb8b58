//! Caches of definitions, step by step.
use super::{What, X, X_Y, Y, definition, standing};
use crate::base::rows::{Row, Story, are_right, are_told_so};
use mdl_defs::{CacheError, DefCache, Definition};
use std::alloc::Global;

// A call of a cache: to keep a definition, or to look or peek for one, with what is found.
#[derive(Clone, Copy)]
enum Call {
    Keep(u16, u64, What),
    Look(u16, u64, Option<What>),
    Peek(u16, u64, Option<What>),
}

// A call, and how many definitions are kept afterwards.
type Step = (Call, usize);

const OF_TWO: &[Step] = &[
    (Call::Look(1, 1, None), 0),
    (Call::Keep(1, 1, X), 1),
    (Call::Look(1, 2, None), 1),
    (Call::Look(2, 1, None), 1),
    (Call::Keep(1, 2, X_Y), 2),
    (Call::Look(1, 1, Some(X)), 2),
    // Version 2 of place 1 was used less recently than version 1.
    (Call::Keep(2, 1, Y), 2),
    (Call::Look(1, 2, None), 2),
    (Call::Look(1, 1, Some(X)), 2),
    (Call::Look(2, 1, Some(Y)), 2),
    // A definition of a version that is kept already replaces the kept one, and comes first.
    (Call::Keep(1, 1, What::Schema), 2),
    (Call::Look(2, 1, Some(Y)), 2),
    (Call::Look(1, 1, Some(What::Schema)), 2),
    (Call::Keep(2, 1, X_Y), 2),
    (Call::Keep(3, 7, X), 2),
    (Call::Look(1, 1, None), 2),
    (Call::Look(2, 1, Some(X_Y)), 2),
    (Call::Look(3, 7, Some(X)), 2),
];

// A look makes a definition the most recently used one, so that of another place is dropped first.
const OF_TWO_PLACES: &[Step] = &[
    (Call::Keep(1, 1, X), 1),
    (Call::Keep(2, 1, Y), 2),
    (Call::Look(1, 1, Some(X)), 2),
    (Call::Keep(3, 1, X_Y), 2),
    (Call::Look(2, 1, None), 2),
    (Call::Look(1, 1, Some(X)), 2),
    (Call::Look(3, 1, Some(X_Y)), 2),
];

// A peek leaves the order, so that the definition kept first is dropped.
const OF_TWO_PEEKED_AT: &[Step] = &[
    (Call::Keep(1, 1, X), 1),
    (Call::Keep(2, 1, Y), 2),
    (Call::Peek(1, 1, Some(X)), 2),
    (Call::Peek(1, 2, None), 2),
    (Call::Keep(3, 1, X_Y), 2),
    (Call::Peek(1, 1, None), 2),
    (Call::Peek(2, 1, Some(Y)), 2),
    (Call::Peek(3, 1, Some(X_Y)), 2),
];

// The next version of a place replaces the one before.
const OF_ONE_PLACE: &[Step] = &[
    (Call::Keep(1, 1, X), 1),
    (Call::Keep(1, 2, X_Y), 1),
    (Call::Look(1, 1, None), 1),
    (Call::Look(1, 2, Some(X_Y)), 1),
];

const OF_ONE: &[Step] = &[
    (Call::Keep(1, 1, X), 1),
    (Call::Keep(1, 1, Y), 1),
    (Call::Look(1, 1, Some(Y)), 1),
    (Call::Keep(256, u64::MAX, X_Y), 1),
    (Call::Look(1, 1, None), 1),
    (Call::Look(256, u64::MAX, Some(X_Y)), 1),
];

// Whether exactly this was found.
fn is_found(alloc: Global, found: Option<&Definition>, want: Option<What>) -> bool {
    let wanted = standing(alloc, want);
    let is_so = match found {
        Some(found) => wanted.as_ref() == Some(found),
        None => want.is_none(),
    };
    drop(wanted);
    is_so
}

// Keeps a definition. Whether there was memory for it.
fn keeps(alloc: Global, cache: &mut DefCache, place: u16, version: u64, what: What) -> bool {
    match definition(alloc, what) {
        Some(definition) => cache.keep(place, version, definition).is_ok(),
        None => false,
    }
}

// Whether a call gives what its row says.
fn goes_so(alloc: Global, cache: &mut DefCache, (call, kept): Step) -> bool {
    let is_so = match call {
        Call::Keep(place, version, what) => keeps(alloc, cache, place, version, what),
        Call::Look(place, version, want) => is_found(alloc, cache.look(place, version), want),
        Call::Peek(place, version, want) => is_found(alloc, cache.peek(place, version), want),
    };
    is_so && cache.len() == kept
}

// Returns the index of the first wrong call.
fn first_wrong(alloc: Global, cache: &mut DefCache, steps: &[Step]) -> Option<usize> {
    for (place, step) in steps.iter().enumerate() {
        if !goes_so(alloc, cache, *step) {
            return Some(place);
        }
    }
    None
}

// The name of a story, the capacity of its cache, and its calls.
struct CacheOf(&'static str, u16, &'static [Step]);

impl Story for CacheOf {
    fn name(&self) -> &'static str {
        self.0
    }

    fn first_wrong(&self, alloc: Global) -> Option<usize> {
        let Ok(mut cache) = DefCache::new(alloc, self.1) else {
            return Some(self.2.len());
        };
        let wrong = first_wrong(alloc, &mut cache, self.2);
        drop(cache);
        wrong
    }
}

const CACHES: &[CacheOf] = &[
    CacheOf("of two", 2, OF_TWO),
    CacheOf("of two places", 2, OF_TWO_PLACES),
    CacheOf("of two peeked at", 2, OF_TWO_PEEKED_AT),
    CacheOf("of one", 1, OF_ONE),
    CacheOf("of one place", 1, OF_ONE_PLACE),
];

#[test]
fn caches_keep_what_was_used_last(rt: HostRuntime) {
    are_told_so(&rt, rt.alloc(), CACHES);
}

// Returns why there is no cache of this capacity.
fn refusal(alloc: Global, capacity: u16) -> Option<CacheError> {
    match DefCache::new(alloc, capacity) {
        Ok(cache) => {
            let is_empty = cache.len() == 0;
            drop(cache);
            if is_empty {
                None
            } else {
                Some(CacheError::OutOfMemory)
            }
        }
        Err(error) => Some(error),
    }
}

// The capacity of a cache, and why there is no such cache.
struct Capacity(u16, Option<CacheError>);

impl Row for Capacity {
    fn goes_so(&self, alloc: Global) -> bool {
        refusal(alloc, self.0) == self.1
    }
}

const CAPACITIES: &[Capacity] = &[
    Capacity(1, None),
    Capacity(2, None),
    Capacity(4_095, None),
    Capacity(4_096, None),
    Capacity(0, Some(CacheError::BadCapacity)),
    Capacity(4_097, Some(CacheError::BadCapacity)),
    Capacity(u16::MAX, Some(CacheError::BadCapacity)),
];

#[test]
fn caches_keep_1_to_4096(rt: HostRuntime) {
    are_right(&rt, rt.alloc(), CAPACITIES);
}
