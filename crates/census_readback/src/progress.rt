//! How far a report is read.
ghost use Rattle.std.specs.Prelude.{◌≡◌, ◌<◌, ◌≤◌, ◌-◌, IfOk, OnOk, true, false, None, Some, IsTrue, IsFalse};
ghost use Rattle.std.specs.List.{list_all};
ghost use Rattle.census_readback.specs.Steps.{Goes, collection_of, end_step, is_behind, patterns_opened, padded_places, place_at, reading_of, section_step, initial_reading, step};
ghost use Rattle.census_readback.specs.Sections.{place_after};
ghost use Rattle.census_readback.specs.Limits.{count_limit};

use crate::limits::COUNT_LIMIT;
use crate::place::{Place, next};
use census_rows::Row;
use std::alloc::{AllocError, Global};
use std::mem::replace;

// The places of the collections, how many patterns these have, and whether the last row ended a
// report.
#[derive(Drop)]
pub struct Progress<'a> {
    pub places: Vec<Place<'a>>,
    pub patterns: u64,
    pub ended: bool,
}

/// The number of the collection that a row belongs to; 0 for an `end` row, which belongs to none.
pub fn collection_of(row: &Row) -> u64
    ensures { result ≡ collection_of row.now }
{
    match row {
        Row::Open { collection, .. } => *collection,
        Row::Line { collection, .. } => *collection,
        Row::Part { collection, .. } => *collection,
        Row::Engine { collection, .. } => *collection,
        Row::Emits { collection, .. } => *collection,
        Row::Code { collection, .. } => *collection,
        Row::Close { collection, .. } => *collection,
        Row::End { .. } => 0,
    }
}

/// How many patterns a row opens.
pub fn patterns_opened(row: &Row) -> u64
    ensures { result ≡ patterns_opened row.now }
{
    match row {
        Row::Open { patterns, .. } => *patterns,
        _ => 0,
    }
}

// Whether a collection is read to its end.
fn is_behind(place: &Place) -> bool
    ensures { result ≡ is_behind place.now }
{
    match place {
        Place::Behind => true,
        _ => false,
    }
}

// Whether each collection is read to its end.
fn all_behind(places: &[Place]) -> bool
    ensures { result ≡ list_all is_behind places.now }
{
    places.iter().all(|place| is_behind(place))
}

// Adds places until there are at least `count`.
fn pad<'a>(places: &mut Vec<Place<'a>>, count: usize) -> Result<(), AllocError>
    ensures { OnOk result (places.new.items ≡ padded_places places.old.items count) }
{
    while places.len() < count {
        places.push(Place::Before)?;
    }
    Ok(())
}

// Takes a row at the place of the collection at this index, if it may come there.
fn go<'a>(
    alloc: Global,
    places: &mut Vec<Place<'a>>,
    index: usize,
    row: &Row<'a>,
) -> Result<bool, AllocError>
    requires { index < count_limit }
    ensures yes { IfOk result (λ taken. IsTrue taken
        → Goes places.old.items index row.now places.new.items) }
    ensures no { IfOk result (λ taken. IsFalse taken
        → place_after (place_at places.old.items index) row.now ≡ None) }
{
    pad(places, index + 1)?;
    let place = replace(&mut places[index], Place::Before);
    let Some(after) = next(alloc, place, row)? else {
        return Ok(false);
    };
    places[index] = after;
    Ok(true)
}

impl<'a> Progress<'a> {
    pub fn start(alloc: Global) -> Self
        ensures { reading_of result ≡ initial_reading }
    {
        Progress {
            places: Vec::new(alloc),
            patterns: 0,
            ended: false,
        }
    }

    // Takes the row that ends a report, if it may come here.
    fn end(&mut self, collections: u64, patterns: u64) -> bool
        ensures yes { IsTrue result
            → end_step (reading_of self.old) collections patterns ≡ Some (reading_of self.new) }
        ensures no { IsFalse result
            → end_step (reading_of self.old) collections patterns ≡ None }
    {
        let whole = all_behind(self.places.as_slice())
            && self.places.len() as u64 == collections
            && self.patterns == patterns;
        if whole {
            self.places.clear();
            self.patterns = 0;
            self.ended = true;
        }
        whole
    }

    // Takes a row of a collection, if it may come here.
    fn go_on(&mut self, alloc: Global, row: &Row<'a>) -> Result<bool, AllocError>
        ensures yes { IfOk result (λ taken. IsTrue taken
            → section_step (reading_of self.old) row.now ≡ Some (reading_of self.new)) }
        ensures no { IfOk result (λ taken. IsFalse taken
            → section_step (reading_of self.old) row.now ≡ None) }
    {
        let collection = collection_of(row);
        if collection == 0 || COUNT_LIMIT < collection {
            return Ok(false);
        }
        let index = collection as usize - 1;
        let Some(patterns) = self.patterns.checked_add(patterns_opened(row)) else {
            return Ok(false);
        };
        if !go(alloc, &mut self.places, index, row)? {
            return Ok(false);
        }
        self.patterns = patterns;
        self.ended = false;
        Ok(true)
    }

    // Takes a row, if it may come here.
    pub fn take(&mut self, alloc: Global, row: &Row<'a>) -> Result<bool, AllocError>
        ensures yes { IfOk result (λ taken. IsTrue taken
            → step (reading_of self.old) row.now ≡ Some (reading_of self.new)) }
        ensures no { IfOk result (λ taken. IsFalse taken
            → step (reading_of self.old) row.now ≡ None) }
    {
        match row {
            Row::End {
                collections,
                patterns,
            } => Ok(self.end(*collections, *patterns)),
            _ => self.go_on(alloc, row),
        }
    }
}
