//! The keys whose places a context knows.
ghost use Rattle.std.specs.Prelude.{◌≡◌, ◌⊎◌, ℕ, List, true, false, None, Some, [], ◌∷◌, ◌++◌, ◌<◌, ◌==◌, not, length, map, filter, slice_get, if◌then◌else◌, OnOk, OnErr, IfOk, IfSome, IfNone};
ghost use Rattle.std.specs.List.{list_any};
ghost use Rattle.std.specs.Option.{option_map, option_map_or};
ghost use Rattle.indexmap.specs.IndexMap.{get, keys};
ghost use Rattle.mdl_key.specs.Keys.{KeyName, key_eq};
ghost use Rattle.mdl_context.specs.Contexts.{is_of_user_locks, is_user_lock, place_known};
ghost use Rattle.mdl_context.specs.Holdings.{needs_place};
ghost use Rattle.mdl_context.specs.KnownKeys.{AreIndexes, KeepsKeys, is_dropped, known_keys, place_met};
ghost use Rattle.mdl_context.specs.Spares.{HasOneKey};

use crate::Wanted;
use crate::by_place::ByPlace;
use indexmap::IndexMap;
use mdl_key::{Key, Namespace};
use mdl_space::Place;
use std::alloc::{AllocError, Global};
use std::marker::Model;

// How many keys the map may have when nothing is known. If it has as many, it is emptied before the next key.
const MOST_MET: usize = 256;

// How many known keys are compared with one that is looked up. If more are known, the key is found by its hash.
const FEW: usize = 8;

/// The keys whose places a context knows, in the order in which they became known.
///
/// The place of a key is found by a hash of the key, unless only a few are known. Keys that were forgotten stay in the map, without a
/// place. So a key that comes back takes no memory, and its name isn't copied again.
#[derive(Drop)]
pub(crate) struct Known {
    // Every key that became known since the map was emptied, with its place while that is known.
    met: IndexMap<Key, Option<Place>>,
    // The known keys.
    order: Vec<KnownPlace>,
    // For each place, the index of the key that became known there last, where it was noted. No promise rests on these.
    hints: Vec<usize>,
}

/// The place of a known key.
#[derive(Drop)]
pub(crate) struct KnownPlace {
    /// The index of the key in the map.
    pub(crate) key: usize,
    /// The place.
    pub(crate) place: Place,
}

impl Model for Known {
    ghost use Rattle.std.specs.Prelude.{ℕ, List};
    ghost use Rattle.indexmap.specs.IndexMap.{keys};
    ghost use Rattle.mdl_key.specs.Keys.{KeyName};
    ghost use Rattle.mdl_context.specs.KnownKeys.{AreIndexes, AreKnownOnce, AreMet, known_keys};

    ghost Value = { List (KeyName × ℕ) };

    ghost view = { λ known. known_keys (keys known.met) known.order.items };

    ghost invariant = { λ known. record {
      indexes : AreIndexes (keys known.met) known.order.items;
      met : AreMet known.met.entries (known_keys (keys known.met) known.order.items);
      once : AreKnownOnce (known_keys (keys known.met) known.order.items);
    } };
}

impl Known {
    /// No keys. Takes no memory.
    pub(crate) fn new(alloc: Global) -> Known
        ensures { result ≡ [] }
    {
        Known {
            met: IndexMap::new(alloc),
            order: Vec::new(alloc),
            hints: Vec::new(alloc),
        }
    }

    /// The number of known keys.
    pub(crate) fn len(&self) -> usize
        ensures { result ≡ length self.now }
    {
        self.order.len()
    }

    /// The place of a known key by its index, in the order in which the keys became known.
    pub(crate) fn place(&self, index: usize) -> Place
        requires { index < length self.now }
        ensures { slice_get (map (λ entry. entry.1) self.now) index ≡ Some result }
    {
        self.order[index].place
    }

    /// The place of a key, if it is known.
    pub(crate) fn place_of(&self, key: &Key) -> Option<Place>
        ensures { result ≡ place_known key.now self.now }
    {
        if self.order.len() > FEW {
            return *self.met.get(key)?;
        }
        place_among(&self.met, &self.order, key)
    }

    /// Adds the place of a new key. One that was forgotten takes no memory, unless the map was emptied since.
    pub(crate) fn add(&mut self, key: &Key, place: Place) -> Result<(), AllocError>
        requires { place_known key.now self.old ≡ None }
        ensures done { OnOk result (self.new ≡ self.old ++ (key.now, place) ∷ []) }
        ensures refused { OnErr result (self.new ≡ self.old) }
    {
        self.order.reserve(1)?;
        empty_if_many(&mut self.met, &self.order);
        let key = meet(&mut self.met, hint(&self.hints, place), key, place)?;
        note(&mut self.hints, place, key);
        self.order.push_reserved(KnownPlace { key, place });
        Ok(())
    }

    /// Forgets the key that became known last. Takes no memory.
    pub(crate) fn forget_last(&mut self)
        ensures last { (before : List (KeyName × ℕ)) (last : KeyName × ℕ) → self.old ≡ before ++ last ∷ [] → self.new ≡ before }
        ensures none { self.old ≡ [] → self.new ≡ [] }
    {
        if let Some(last) = self.order.pop() {
            drop_place(&mut self.met, last.key);
        }
    }

    /// Forgets the keys at whose places there is neither a ticket nor the wait. Takes no memory.
    pub(crate) fn forget_unneeded(&mut self, by_place: &ByPlace, wait: Option<Wanted>)
        ensures { self.new ≡ filter (λ entry. needs_place by_place.now wait entry.1) self.old }
    {
        drop_places(&mut self.met, &self.order, by_place, wait);
        keep_needed(&mut self.order, by_place, wait);
    }

    /// Forgets the key at a place. Returns whether one was known there. Takes no memory.
    pub(crate) fn forget_at(&mut self, place: Place) -> bool
        requires { HasOneKey place self.old }
        ensures known { self.new ≡ filter (λ entry. not (entry.1 == place)) self.old }
        ensures spare { filter (λ p. p == place) (map (λ entry. entry.1) self.old) ≡ (if result then place ∷ [] else []) }
    {
        let Some(at) = last_at(&self.order, place) else {
            return false;
        };
        let gone = self.order.remove(at);
        drop_place(&mut self.met, gone.key);
        true
    }

    /// Forgets all keys. Takes no memory.
    pub(crate) fn forget_all(&mut self)
        ensures { self.new ≡ [] }
    {
        drop_all(&mut self.met, &self.order);
        self.order.clear();
    }

    /// Whether a place is that of a user-level lock.
    pub(crate) fn is_user_lock(&self, place: Place) -> bool
        ensures { result ≡ is_user_lock self.now place }
    {
        let met = &self.met;
        self.order.iter().any(|known| known.place == place && is_user_key(met, known.key))
    }
}

// The place of a key, if it is known. The known keys are compared with it, one after the other.
fn place_among(met: &IndexMap<Key, Option<Place>>, order: &[KnownPlace], key: &Key) -> Option<Place>
    ensures { result ≡ place_known key.now (known_keys (keys met.now) order.now) }
{
    order
        .iter()
        .find(|known| is_key(met, known.key, key))
        .map(|known| known.place)
}

// The index of the last known key at a place, if there is one.
fn last_at(order: &[KnownPlace], place: Place) -> Option<usize>
    ensures found { IfSome result (λ at. option_map (λ known. known.place) (slice_get order.now at) ≡ Some place) }
    ensures none { IfNone result (list_any (λ known. known.place == place) order.now ≡ false) }
{
    for at in (0..order.len()).rev() {
        if order[at].place == place {
            return Some(at);
        }
    }
    None
}

// Whether the key with an index is this one.
#[inline(always)]
fn is_key(met: &IndexMap<Key, Option<Place>>, index: usize, key: &Key) -> bool
    ensures { result ≡ option_map_or (key_eq key.now) (slice_get (keys met.now) index) false }
{
    match met.get_index(index) {
        Some((known, _place)) => *key == *known,
        None => false,
    }
}

// Whether the key with an index is that of a user-level lock.
fn is_user_key(met: &IndexMap<Key, Option<Place>>, index: usize) -> bool
    ensures { result ≡ option_map_or (λ (key : KeyName). is_of_user_locks key.namespace) (slice_get (keys met.now) index) false }
{
    match met.get_index(index) {
        Some((key, _place)) => key.namespace() == Namespace::UserLevelLock,
        None => false,
    }
}

// Empties the map if it has many keys and none of them is known.
fn empty_if_many(met: &mut IndexMap<Key, Option<Place>>, order: &[KnownPlace])
    ensures { (met.new.entries ≡ met.old.entries) ⊎ ((order.now ≡ []) × (met.new.entries ≡ [])) }
{
    if order.is_empty() && met.len() >= MOST_MET {
        met.clear();
    }
}

// The index that was noted for a place.
fn hint(hints: &[usize], place: Place) -> usize {
    match hints.get(usize::from(place)) {
        Some(index) => *index,
        None => 0,
    }
}

// Notes an index for a place. If there is no memory for that, it isn't noted.
fn note(hints: &mut Vec<usize>, place: Place, index: usize) {
    let at = usize::from(place);
    for _hint in hints.len()..at + 1 {
        if hints.push(0).is_err() {
            return;
        }
    }
    if let Some(hint) = hints.get_mut(at) {
        *hint = index;
    }
}

// Notes the place of a key, and returns the index of the key, which is compared with that at the hint first. One that is in the map
// isn't copied, and takes no memory.
fn meet(
    met: &mut IndexMap<Key, Option<Place>>,
    hint: usize,
    key: &Key,
    place: Place,
) -> Result<usize, AllocError>
    ensures index { IfOk result (λ index. slice_get (keys met.new) index ≡ Some key.now) }
    ensures places { OnOk result ((q : KeyName) → place_met q met.new.entries ≡ (if key_eq key.now q then Some place else place_met q met.old.entries)) }
    ensures keys { OnOk result (KeepsKeys (keys met.old) (keys met.new)) }
    ensures refused { OnErr result (met.new.entries ≡ met.old.entries) }
{
    if let Some(index) = index_met(met, hint, key) {
        set_place(met, index, Some(place));
        return Ok(index);
    }
    let index = met.len();
    met.insert(key.clone()?, Some(place))?;
    Ok(index)
}

// The index of a key that is in the map. It is compared with that at the hint first, which takes no hash.
fn index_met(met: &IndexMap<Key, Option<Place>>, hint: usize, key: &Key) -> Option<usize>
    ensures found { IfSome result (λ index. slice_get (keys met.now) index ≡ Some key.now) }
    ensures new { IfNone result (get key_eq met.now key.now ≡ None) }
{
    if is_key(met, hint, key) {
        return Some(hint);
    }
    met.get_index_of(key)
}

// Drops the places at which there is neither a ticket nor the wait.
fn drop_places(
    met: &mut IndexMap<Key, Option<Place>>,
    order: &[KnownPlace],
    by_place: &ByPlace,
    wait: Option<Wanted>,
)
    requires { AreIndexes (keys met.old) order.now }
    ensures keys { keys met.new ≡ keys met.old }
    ensures places { (q : KeyName) → place_met q met.new.entries ≡ (if is_dropped (needs_place by_place.now wait) q (known_keys (keys met.old) order.now) then None else place_met q met.old.entries) }
{
    for known in order {
        if !by_place.needs(wait, known.place) {
            drop_place(met, known.key);
        }
    }
}

// Drops the places of all known keys.
fn drop_all(met: &mut IndexMap<Key, Option<Place>>, order: &[KnownPlace])
    requires { AreIndexes (keys met.old) order.now }
    ensures keys { keys met.new ≡ keys met.old }
    ensures places { (q : KeyName) → place_met q met.new.entries ≡ (if is_dropped (λ _. false) q (known_keys (keys met.old) order.now) then None else place_met q met.old.entries) }
{
    for gone in order {
        drop_place(met, gone.key);
    }
}

// Drops the place of the key with an index.
fn drop_place(met: &mut IndexMap<Key, Option<Place>>, index: usize)
    ensures keys { keys met.new ≡ keys met.old }
    ensures place { (key q : KeyName) → slice_get (keys met.old) index ≡ Some key → place_met q met.new.entries ≡ (if key_eq key q then None else place_met q met.old.entries) }
{
    set_place(met, index, None);
}

// Sets what is noted as the place of the key with an index.
fn set_place(met: &mut IndexMap<Key, Option<Place>>, index: usize, place: Option<Place>)
    ensures keys { keys met.new ≡ keys met.old }
    ensures place { (key q : KeyName) → slice_get (keys met.old) index ≡ Some key → place_met q met.new.entries ≡ (if key_eq key q then place else place_met q met.old.entries) }
{
    if let Some(noted) = met.get_index_mut(index) {
        *noted = place;
    }
}

// Keeps the places at which there is a ticket or the wait.
fn keep_needed(order: &mut Vec<KnownPlace>, by_place: &ByPlace, wait: Option<Wanted>)
    ensures { order.new.items ≡ filter (λ known. needs_place by_place.now wait known.place) order.old.items }
{
    order.retain(|known| by_place.needs(wait, known.place));
}
