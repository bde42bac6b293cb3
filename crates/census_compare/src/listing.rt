//! Patterns that are the same as others, held by their places.
ghost use Rattle.std.specs.Prelude.{◌≡◌, ◌<◌, ◌≤◌, filter, length, map, slice_index_or, IfOk};
ghost use Rattle.std.specs.List.{prefix_len};
ghost use Rattle.census_table.specs.Places.{AreRising};
ghost use Rattle.census_compare.specs.Order.{AreInOrder, Key, has_key, key_cmp, key_of};
ghost use Rattle.census_compare.specs.Same.{AreSame, several};
ghost use Rattle.census_table.specs.declared.place.Place.{Place as ModelPlace};
ghost use Rattle.census_compare.specs.declared.told.Told.{Told as ModelTold};

use crate::told::Told;
use census_table::{OrderAtPlaces, Place, put_in_order};
use std::alloc::{AllocError, Global};
use std::cmp::Ordering;
use std::marker::Model;

/// Patterns that have places.
pub trait AtPlaces {
    ghost use Rattle.std.specs.Prelude.{◌≡◌};
    ghost use Rattle.census_table.specs.declared.place.Place.{Place};
    ghost use Rattle.census_compare.specs.Order.{key_of};
    ghost use Rattle.census_compare.specs.declared.told.Told.{Told};

    /// The pattern at a place.
    ghost told: { Self → Place → Told };

    /// The pattern at a place.
    fn told_at(&self, place: Place) -> Told<'_>
        ensures { result ≡ told self.now place };

    /// A pattern with the code and the rule of the one at a place, which may have other names, where that is less work.
    fn keyed_at(&self, place: Place) -> Told<'_>
        ensures { key_of result ≡ key_of (told self.now place) };
}

// Which of two patterns comes first: by their codes, and under one code by their rules.
fn key_order(told: &Told, other: &Told) -> Ordering
    ensures { result ≡ key_cmp (key_of told.now) (key_of other.now) }
{
    let rules = told.rule.cmp(other.rule);
    told.code.cmp(other.code).then(rules)
}

// Which of the patterns at two places comes first.
fn told_order<S: AtPlaces>(source: &S, one: &Place, other: &Place) -> Ordering
    ensures { result ≡ key_cmp (key_of (S.told source.now one.now)) (key_of (S.told source.now other.now)) }
{
    let told = source.keyed_at(*one);
    key_order(&told, &source.keyed_at(*other))
}

// The order of patterns at places: by their codes, and under one code by their rules.
#[derive(Drop)]
struct ByKey<'s, S: AtPlaces> {
    source: &'s S,
}

impl<'s, S: AtPlaces> OrderAtPlaces for ByKey<'s, S> {
    ghost use Rattle.census_compare.specs.KeyLaws.{keys_at_total};
    ghost use Rattle.census_compare.specs.Order.{key_cmp, key_of};

    ghost cmp = { λ by p q. key_cmp (key_of (S.told by.source.now p)) (key_of (S.told by.source.now q)) };

    ghost total = { λ by. keys_at_total (S.told by.source.now) };

    fn order(&self, one: &Place, other: &Place) -> Ordering {
        told_order(self.source, one, other)
    }
}

// Puts rising places in the order of the codes of their patterns, and of their rules under one code. Patterns with the same
// code and rule keep their order.
fn sort_places<S: AtPlaces>(source: &S, places: &mut [Place])
    requires { AreRising places.old }
    ensures same { (key : Key) → filter (has_key key) (map (S.told source.now) places.new)
        ≡ filter (has_key key) (map (S.told source.now) places.old) }
    ensures ordered { AreInOrder (map (S.told source.now) places.new) }
{
    put_in_order(&ByKey { source }, places);
}

// Whether the pattern at a place has the code of this one under its rule.
fn is_same<S: AtPlaces>(source: &S, told: &Told, place: &Place) -> bool
    ensures { result ≡ has_key (key_of told.now) (S.told source.now place.now) }
{
    let other = source.keyed_at(*place);
    told.code == other.code && told.rule == other.rule
}

// How many places at the start have patterns with the code and the rule of this one.
fn run_len<S: AtPlaces>(source: &S, places: &[Place], told: &Told) -> usize
    ensures count { result ≡ prefix_len (has_key (key_of told.now)) (map (S.told source.now) places.now) }
    ensures within { result ≤ length places.now }
{
    for index in 0..places.len() {
        if !is_same(source, told, &places[index]) {
            return index;
        }
    }
    places.len()
}

// These places, if they are several.
fn several_of(places: &[Place]) -> &[Place]
    ensures { (told : ModelPlace → ModelTold) → map told result.now ≡ several (map told places.now) }
{
    if places.len() > 1 { places } else { &[] }
}

// Of places in order those whose patterns are the same as others.
fn shared_places<S: AtPlaces>(
    alloc: Global,
    source: &S,
    places: &[Place],
) -> Result<Vec<Place>, AllocError>
    requires { AreInOrder (map (S.told source.now) places.now) }
    ensures same { IfOk result (λ shared. AreSame (map (S.told source.now) places.now)
        (map (S.told source.now) shared.items)) }
    ensures ordered { IfOk result (λ shared. AreInOrder (map (S.told source.now) shared.items)) }
{
    // There is room for all, so that none is moved: memory that is not touched costs nothing.
    let mut shared = Vec::with_capacity(alloc, places.len())?;
    let mut at = 0;
    while at < places.len() {
        let left = &places[at..];
        let told = source.keyed_at(left[0]);
        let count = run_len(source, left, &told);
        shared.extend_from_slice(several_of(&left[..count]))?;
        at += count;
    }
    Ok(shared)
}

/// Patterns in an order of their own. For each its place is held, in 12 bytes.
#[derive(Drop)]
pub struct Tolds<S: AtPlaces + Drop> {
    source: S,
    places: Vec<Place>,
}

impl<S: AtPlaces + Drop> Model for Tolds<S> {
    ghost use Rattle.std.specs.Prelude.{List, map};
    ghost use Rattle.census_compare.specs.declared.told.Told.{Told};

    ghost Value = { List Told };

    ghost view = { λ s. map (S.told s.source) s.places.items };
}

impl<S: AtPlaces + Drop> Tolds<S> {
    /// The number of patterns.
    pub fn len(&self) -> usize
        ensures { result ≡ length self.now }
    {
        self.places.len()
    }

    /// The pattern at this index.
    pub fn told(&self, index: usize) -> Told<'_>
        requires { index < length self.now }
        ensures { result ≡ slice_index_or self.now index result }
    {
        self.source.told_at(self.places[index])
    }
}

/// Of the patterns at rising places those that are the same as others, in the order of their codes, and of their rules under one
/// code. Those with the same code and rule are in the order of their places. The only error is out of memory.
pub fn shared_tolds<S: AtPlaces + Drop>(
    alloc: Global,
    source: S,
    places: Vec<Place>,
) -> Result<Tolds<S>, AllocError>
    requires { AreRising places.items }
    ensures same { IfOk result (AreSame (map (S.told source) places.items)) }
    ensures ordered { IfOk result AreInOrder }
{
    let mut places = places;
    sort_places(&source, places.as_mut_slice());
    let shared = shared_places(alloc, &source, places.as_slice())?;
    Ok(Tolds {
        source,
        places: shared,
    })
}
