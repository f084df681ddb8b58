//! Look-ups in maps, with which calls are compared.
use crate::failure::Failure;
use crate::lap::spent_since;
use crate::table::table;
use crate::words::Words;
use indexmap::IndexMap;
use mdl_calls::Place;
use mdl_key::Key;
use std::alloc::Global;
use std::sync::atomic::Ordering;
use std::time::{Clock, Duration, Instant};

/// Times `turns` look-ups in a map of `keys` keys.
pub fn time_key_probes<R: Clock>(
    rt: &R,
    alloc: Global,
    keys: u16,
    turns: u32,
) -> Result<Duration, Failure> {
    let mut map = IndexMap::new(alloc);
    let spent = probe_keys(rt, alloc, &mut map, keys, turns);
    drop(map);
    spent
}

// Fills a map with the keys of tables, and times look-ups of the last one.
fn probe_keys<R: Clock>(
    rt: &R,
    alloc: Global,
    map: &mut IndexMap<Key, Place>,
    keys: u16,
    turns: u32,
) -> Result<Duration, Failure> {
    for index in 0..keys {
        let key = table(alloc, index)?;
        if map.insert(key, index).is_err() {
            return Err(Failure::Memory);
        }
    }
    let last = keys.saturating_sub(1);
    let key = table(alloc, last)?;
    let spent = find_key(rt, map, &key, last, turns);
    drop(key);
    spent
}

// Times `turns` look-ups of a key whose place is in the map.
fn find_key<R: Clock>(
    rt: &R,
    map: &IndexMap<Key, Place>,
    key: &Key,
    place: Place,
    turns: u32,
) -> Result<Duration, Failure> {
    let began = Instant::now(rt)?;
    let mut made = 0u32;
    for _turn in 0..turns {
        made = made.wrapping_add(u32::from(map.get(key) == Some(&place)));
    }
    spent_since(rt, began, made, turns)
}

/// Times `turns` look-ups in a map of `places` places with versions.
pub fn time_version_probes<R: Clock>(
    rt: &R,
    alloc: Global,
    places: u16,
    turns: u32,
) -> Result<Duration, Failure> {
    let words = Words::new(alloc)?;
    let mut map = IndexMap::new(alloc);
    let spent = probe_versions(rt, &mut map, &words, places, turns);
    drop(map);
    drop(words);
    spent
}

// Fills a map with places and versions, and times look-ups of the last one.
fn probe_versions<R: Clock>(
    rt: &R,
    map: &mut IndexMap<(Place, u64), Place>,
    words: &Words,
    places: u16,
    turns: u32,
) -> Result<Duration, Failure> {
    for place in 0..places {
        if map.insert((place, 0), place).is_err() {
            return Err(Failure::Memory);
        }
    }
    let began = Instant::now(rt)?;
    let made = find_version(map, words, places.saturating_sub(1), turns);
    spent_since(rt, began, made, turns)
}

// Looks up a place `turns` times, each time with the version read from a word, so that no turn can reuse what another one computed. Returns how
// often it was found.
fn find_version(
    map: &IndexMap<(Place, u64), Place>,
    words: &Words,
    place: Place,
    turns: u32,
) -> u32 {
    let Some(version) = words.word(0) else {
        return 0;
    };
    let mut found = 0u32;
    for _turn in 0..turns {
        let key = (place, version.load(Ordering::SeqCst));
        if map.get(&key) == Some(&place) {
            found = found.wrapping_add(1);
        }
    }
    found
}
