//! The patterns of reports, by their names.
ghost use Rattle.std.specs.Prelude.{◌≡◌, ◌+◌, ◌++◌, ◌<◌, ◌^◌, ◌∷◌, ℕ, [], List, IfOk, MatchOption, OnOk, length, map, slice_index_or, true};
ghost use Rattle.std.specs.List.{list_all};
ghost use Rattle.std.specs.List.Sorted.{IsPermutation};
ghost use Rattle.census_readback.specs.Shapes.{AreReports};
ghost use Rattle.census_table.specs.Entries.{all_entries, entries_of, section_entries};
ghost use Rattle.census_compare.specs.Claims.{Claim as ClaimRead, claim_read};
ghost use Rattle.census_compare.specs.Index.{AreInOrder, AreNoted, AreOthers, IsFirst, IsIndex, are_none, begins_with, entry_at, entry_known, has_key, has_names, key_lent, key_order, names_claimed, names_of, patterns_in, slot_of, spot_known, spots_of};
ghost use Rattle.census_compare.specs.declared.index.Spot.{Spot as SpotRead};
ghost use Rattle.census_compare.specs.Order.{key_cmp};
ghost use Rattle.census_compare.specs.Patterns.{is_claimed, key_of, matched, patterns_of};

use crate::claim::Claim;
use census_readback::{Sections, collections};
use census_rows::{Row, Rows};
use census_table::{Entry, Place, entries_under};
use std::alloc::{AllocError, Global};
use std::cmp::Ordering;

/// How many patterns a claim is about.
#[derive(Clone, Copy, Drop)]
pub enum Match<'a> {
    /// None.
    Nothing,
    /// The only one.
    One(Entry<'a>),
    /// Several.
    Several,
}

/// The name of a pattern, and that of its collection if one is given.
pub type Key<'a> = (&'a [u8], Option<&'a [u8]>);

/// A pattern by its names, and the place of its line.
#[derive(Clone, Copy)]
pub struct Spot<'a> {
    pub name: &'a [u8],
    pub collection: &'a [u8],
    pub place: Place,
}

/// The patterns of reports in the order of their names, and which of these names claims have given.
#[derive(Drop)]
pub struct Index<'b, 'a> {
    pub sections: Sections<'b, 'a>,
    pub spots: Vec<Spot<'a>>,
    // At the first pattern of each name, whether a claim gave it alone, and at the first of that name in each collection, whether
    // a claim gave both: in this order, two for each pattern.
    pub noted: Vec<bool>,
}

// The key of the pattern that a claim is about.
fn key_of(claim: &Claim) -> Key
    ensures { key_lent result ≡ key_of (claim_read claim.now) }
{
    let collection = claim.collection.as_slice();
    if collection.is_empty() {
        (claim.name.as_slice(), None)
    } else {
        (claim.name.as_slice(), Some(collection))
    }
}

// Whether a key is about a pattern, or about those that come behind it (`Greater`) or before it.
fn key_order(key: &Key, spot: &Spot) -> Ordering
    ensures { result ≡ key_order (key_lent key.now) (names_of spot.now) }
{
    let within = match key.1 {
        Some(collection) => collection.cmp(spot.collection),
        None => Ordering::Equal,
    };
    key.0.cmp(spot.name).then(within)
}

// Which of two patterns comes first: by their names, and those of one name by their collections.
fn spot_order(one: &Spot, other: &Spot) -> Ordering
    ensures { result ≡ key_cmp (names_of one.now) (names_of other.now) }
{
    let collections = one.collection.cmp(other.collection);
    one.name.cmp(other.name).then(collections)
}

// Puts patterns in order.
fn put_in_order(spots: &mut Vec<Spot>)
    ensures permutation { IsPermutation spots.old.items spots.new.items }
    ensures ordered { AreInOrder spots.new.items }
{
    spots.sort_unstable_by(|one, other| spot_order(one, other));
}

// The index of the first pattern that a key is about.
fn first_of(spots: &[Spot], key: &Key) -> Option<usize>
    requires { AreInOrder spots.now }
    ensures { MatchOption result (AreOthers (key_lent key.now) spots.now)
        (IsFirst (key_lent key.now) spots.now) }
{
    let at = spots.partition_point(|spot| key_order(key, spot).is_gt());
    if at >= spots.len() {
        return None;
    }
    if !key_order(key, &spots[at]).is_eq() {
        return None;
    }
    Some(at)
}

// Whether a key is about the first of these patterns.
fn begins_with(spots: &[Spot], key: &Key) -> bool
    ensures { result ≡ begins_with (key_lent key.now) spots.now }
{
    match spots {
        [spot, ..] => key_order(key, spot).is_eq(),
        [] => false,
    }
}

// The place of a key among what is noted, where the first pattern that it is about has this index.
fn slot_of(at: usize, key: &Key) -> usize
    requires { at < 2 ^ 62 }
    ensures { result ≡ slot_of at (key_lent key.now) }
{
    match key.1 {
        Some(_) => at + at + 1,
        None => at + at,
    }
}

// Adds the pattern of a row in the collection that another row opens, if it is the line of one.
fn add_row<'a>(
    spots: &mut Vec<Spot<'a>>,
    heading: &Row<'a>,
    row: &Row<'a>,
    place: Place,
) -> Result<(), AllocError>
    ensures { OnOk result (spots.new.items ≡ spots.old.items ++ spots_of heading.now row.now place) }
{
    match (heading, row) {
        (
            Row::Open {
                name: collection,
                ..
            },
            Row::Line { name, .. },
        ) => {
            let spot = Spot {
                name: *name,
                collection: *collection,
                place,
            };
            spots.push(spot)?;
        }
        _ => {}
    }
    Ok(())
}

// Adds the patterns of the collection at this index.
fn add_section<'a>(
    sections: &Sections<'_, 'a>,
    collection: usize,
    spots: &mut Vec<Spot<'a>>,
) -> Result<(), AllocError>
    requires { collection < length sections.now }
    ensures { OnOk result (map (spot_known sections.now) spots.new.items
        ≡ map (spot_known sections.now) spots.old.items
        ++ map entry_known (section_entries (collection + 1) (slice_index_or sections.now collection []))) }
{
    let rows = sections.section(collection);
    if rows.len() == 0 {
        return Ok(());
    }
    let heading = rows.row(0);
    for index in 1..rows.len() {
        let place = Place::of(collection, index, index)?;
        add_row(spots, &heading, &rows.row(index), place)?;
    }
    Ok(())
}

// The patterns of collections, in their order.
fn spots_in<'a>(alloc: Global, sections: &Sections<'_, 'a>) -> Result<Vec<Spot<'a>>, AllocError>
    ensures { IfOk result (λ spots. map (spot_known sections.now) spots.items
        ≡ map entry_known (all_entries 1 sections.now)) }
{
    let mut spots = Vec::new(alloc);
    for collection in 0..sections.len() {
        add_section(sections, collection, &mut spots)?;
    }
    Ok(spots)
}

// The pattern at a place.
fn entry_at<'a>(
    alloc: Global,
    sections: &Sections<'_, 'a>,
    place: Place,
) -> Result<Option<Entry<'a>>, AllocError>
    ensures { IfOk result (λ entry. entry ≡ entry_at sections.now place) }
{
    let collection = place.collection as usize;
    let row = place.row as usize;
    if collection >= sections.len() {
        return Ok(None);
    }
    let rows = sections.section(collection);
    if row >= rows.len() {
        return Ok(None);
    }
    let here = rows.from(row);
    let both = here.before(here.len().min(2));
    let entries = entries_under(alloc, collection as u64 + 1, &rows.row(0), &both)?;
    Ok(entries.first().copied())
}

impl<'b, 'a> Index<'b, 'a> {
    /// The patterns of reports, before any claim is known. The only error is out of memory.
    pub fn of(alloc: Global, rows: &'b Rows<'a>) -> Result<Index<'b, 'a>, AllocError>
        requires { AreReports rows.now }
        ensures patterns { IfOk result (λ index. patterns_in index ≡ entries_of rows.now) }
        ensures is { IfOk result IsIndex }
        ensures noted { IfOk result (AreNoted []) }
    {
        let sections = collections(alloc, rows)?;
        let mut spots = spots_in(alloc, &sections)?;
        put_in_order(&mut spots);
        let noted = Vec::from_elem(alloc, false, spots.len() + spots.len())?;
        Ok(Index {
            sections,
            spots,
            noted,
        })
    }

    /// How many patterns a claim is about. The only error is out of memory.
    pub fn match_of(&self, alloc: Global, claim: &Claim) -> Result<Match<'a>, AllocError>
        requires { IsIndex self.now }
        ensures { IfOk result (λ found. found ≡ matched (patterns_of (claim_read claim.now) (patterns_in self.now))) }
    {
        let key = key_of(claim);
        let spots = self.spots.as_slice();
        let Some(at) = first_of(spots, &key) else {
            return Ok(Match::Nothing);
        };
        let (_, behind) = spots.split_at(at + 1);
        if begins_with(behind, &key) {
            return Ok(Match::Several);
        }
        match entry_at(alloc, &self.sections, spots[at].place)? {
            Some(entry) => Ok(Match::One(entry)),
            None => Ok(Match::Nothing),
        }
    }

    /// Notes a claim.
    pub fn note(&mut self, claim: &Claim)
        requires { IsIndex self.old }
        ensures is { IsIndex self.new }
        ensures patterns { patterns_in self.new ≡ patterns_in self.old }
        ensures noted { (claims : List ClaimRead) → AreNoted claims self.old
            → AreNoted (claims ++ claim_read claim.now ∷ []) self.new }
    {
        let key = key_of(claim);
        if let Some(at) = first_of(self.spots.as_slice(), &key) {
            self.noted[slot_of(at, &key)] = true;
        }
    }

    // Whether a claim had this key, which is about a pattern.
    fn is_noted(&self, key: &Key) -> bool
        requires { IsIndex self.now }
        ensures { (claims : List ClaimRead) → AreNoted claims self.now → (k : ℕ) (d : SpotRead) → k < length self.now.spots.items
            → has_names (key_lent key.now) (names_of (slice_index_or self.now.spots.items k d)) ≡ true
            → result ≡ has_key claims (key_lent key.now) }
    {
        match first_of(self.spots.as_slice(), key) {
            Some(at) => self.noted[slot_of(at, key)],
            None => false,
        }
    }

    // Whether a claim is about the pattern at this index.
    fn is_claimed(&self, index: usize) -> bool
        requires is { IsIndex self.now }
        requires within { index < length self.now.spots.items }
        ensures { (claims : List ClaimRead) → AreNoted claims self.now → (d : SpotRead)
            → result ≡ names_claimed claims (names_of (slice_index_or self.now.spots.items index d)) }
    {
        let spot = &self.spots[index];
        self.is_noted(&(spot.name, None)) || self.is_noted(&(spot.name, Some(spot.collection)))
    }

    /// The patterns that no claim is about, in the order of the reports. The only error is out of memory.
    pub fn unclaimed(&self, alloc: Global) -> Result<Vec<Spot<'a>>, AllocError>
        requires { IsIndex self.now }
        ensures { (claims : List ClaimRead) → AreNoted claims self.now
            → IfOk result (λ spots. are_none spots.items ≡ list_all (is_claimed claims) (patterns_in self.now)) }
    {
        let mut left = Vec::new(alloc);
        for index in 0..self.spots.len() {
            if !self.is_claimed(index) {
                left.push(self.spots[index])?;
            }
        }
        left.sort_unstable_by_key(|spot| (spot.place.collection, spot.place.row));
        Ok(left)
    }
}
