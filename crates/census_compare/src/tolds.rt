//! The patterns of reports that are objects.
ghost use Rattle.std.specs.Prelude.{◌≡◌, ◌<◌, ◌+◌, ◌++◌, [], List, None, length, map, slice_index_or, IfOk, OnOk};
ghost use Rattle.std.specs.List.{flat_map};
ghost use Rattle.census_rows.specs.declared.row.Row.{Row};
ghost use Rattle.census_table.specs.Kinds.{capped};
ghost use Rattle.census_table.specs.Places.{row_in, AreBefore, AreRising};
ghost use Rattle.census_compare.specs.Order.{AreInOrder, key_of};
ghost use Rattle.census_compare.specs.Same.{AreSame};
ghost use Rattle.census_compare.specs.SamePatterns.{collection_after, told_from};
ghost use Rattle.census_compare.specs.Places.{opened_by, row_at, told_at, told_under};

use crate::listing::{AtPlaces, Tolds, shared_tolds};
use crate::told::{Told, collection_after, no_told, told_by};
use census_readback::Sections;
use census_rows::{Row, Section};
use census_table::Place;
use std::alloc::{AllocError, Global};

// A row without a pattern.
fn no_row<'a>() -> Row<'a>
    ensures { result ≡ row_in [] 0 }
{
    Row::End {
        collections: 0,
        patterns: 0,
    }
}

// The row at this index of a collection. After the last one there are rows without patterns.
fn row_at<'a>(sections: &Sections<'_, 'a>, collection: usize, index: usize) -> Row<'a>
    ensures { result ≡ row_at sections.now collection index }
{
    if collection >= sections.len() {
        return no_row();
    }
    let rows = sections.section(collection);
    if index < rows.len() {
        rows.row(index)
    } else {
        no_row()
    }
}

// The name of the collection that a row opens, or this one if it opens none.
fn opened_by<'a>(nothing: &'a [u8], row: &Row<'a>) -> &'a [u8]
    ensures { result ≡ opened_by nothing.entry row.now }
{
    collection_after(&None, row).unwrap_or(nothing)
}

// The pattern of a row in a collection that has this name, or this one if it has none.
fn told_under<'a>(nothing: &Told<'a>, collection: &'a [u8], row: &Row<'a>) -> Told<'a>
    ensures { result ≡ told_under nothing.now collection.entry row.now }
{
    told_by(&Some(collection), row).unwrap_or(*nothing)
}

// The pattern that is reported at a place. If there is none, its fields are those of this one.
fn told_at<'a>(nothing: &Told<'a>, sections: &Sections<'_, 'a>, place: Place) -> Told<'a>
    ensures { result ≡ told_at nothing.now sections.now place }
{
    let collection = place.collection as usize;
    let heading = row_at(sections, collection, place.under as usize);
    let name = opened_by(nothing.collection, &heading);
    told_under(
        nothing,
        name,
        &row_at(sections, collection, place.row as usize),
    )
}

// The pattern that is reported at a place, without the name of its collection: only its own row is unpacked.
fn keyed_at<'a>(nothing: &Told<'a>, sections: &Sections<'_, 'a>, place: Place) -> Told<'a>
    ensures { key_of result ≡ key_of (told_at nothing.now sections.now place) }
{
    let row = row_at(sections, place.collection as usize, place.row as usize);
    told_under(nothing, nothing.collection, &row)
}

/// The patterns of collections that are objects, at the places of their lines.
#[derive(Drop)]
pub struct InReports<'b, 'a> {
    sections: Sections<'b, 'a>,
    // What is there where no pattern is reported. No place has it.
    nothing: Told<'a>,
}

impl<'b, 'a> AtPlaces for InReports<'b, 'a> {
    ghost use Rattle.census_compare.specs.Places.{told_at};

    ghost told = { λ r place. told_at r.nothing r.sections place };

    fn told_at(&self, place: Place) -> Told<'_> {
        told_at(&self.nothing, &self.sections, place)
    }

    fn keyed_at(&self, place: Place) -> Told<'_> {
        keyed_at(&self.nothing, &self.sections, place)
    }
}

// How many patterns of a collection's rows are objects.
fn count_section(rows: &Section) -> usize
    ensures { result ≡ length (told_from None rows.now) }
{
    let mut opened = None;
    let mut count = 0;
    for index in 0..rows.len() {
        let row = rows.row(index);
        opened = collection_after(&opened, &row);
        if told_by(&opened, &row).is_some() {
            count += 1;
        }
    }
    count
}

// How many patterns of collections are objects, at most 2^64 - 1.
fn count_tolds(sections: &Sections) -> usize
    ensures { result ≡ capped (length (flat_map (told_from None) sections.now)) }
{
    let mut count: usize = 0;
    for collection in 0..sections.len() {
        count = count.saturating_add(count_section(&sections.section(collection)));
    }
    count
}

// The index of the row that opened a collection last, after the row at an index, where `under` is that index before the row.
fn under_after(row: &Row, index: usize, under: usize) -> usize
    ensures { (rows : List Row) → row_in rows index ≡ row.now
        → collection_after None (row_in rows result)
        ≡ collection_after (collection_after None (row_in rows under)) row.now }
{
    match row {
        Row::Open { .. } => index,
        _ => under,
    }
}

// Adds the places of the patterns of the collection at this index that are objects, in the order of its rows.
fn add_section(
    nothing: &Told,
    sections: &Sections,
    collection: usize,
    places: &mut Vec<Place>,
) -> Result<(), AllocError>
    requires { collection < length sections.now }
    ensures told { OnOk result (map (told_at nothing.now sections.now) places.new.items
        ≡ map (told_at nothing.now sections.now) places.old.items
        ++ told_from None (slice_index_or sections.now collection [])) }
    ensures placed { OnOk result (AreBefore collection 0 places.old.items
        → AreBefore (collection + 1) 0 places.new.items) }
{
    let rows = sections.section(collection);
    let mut opened = None;
    // No row has opened a collection yet: none is at this index.
    let mut under = rows.len();
    for index in 0..rows.len() {
        let row = rows.row(index);
        opened = collection_after(&opened, &row);
        under = under_after(&row, index, under);
        if told_by(&opened, &row).is_some() {
            places.push(Place::of(collection, under, index)?)?;
        }
    }
    Ok(())
}

// The places of the patterns of collections that are objects, collection by collection in the order of the rows.
fn places_in(alloc: Global, nothing: &Told, sections: &Sections) -> Result<Vec<Place>, AllocError>
    ensures told { IfOk result (λ places.
        map (told_at nothing.now sections.now) places.items ≡ flat_map (told_from None) sections.now) }
    ensures rising { IfOk result (λ places. AreRising places.items) }
{
    let mut places = Vec::with_capacity(alloc, count_tolds(sections))?;
    for collection in 0..sections.len() {
        add_section(nothing, sections, collection, &mut places)?;
    }
    Ok(places)
}

/// The patterns of collections that are one object with others, in the order of their codes, and of their rules under one code.
/// Those with the same code and rule are ordered collection by collection, in the order of the rows. The only error is out of
/// memory.
pub fn same_in_reports<'b, 'a>(
    alloc: Global,
    sections: Sections<'b, 'a>,
) -> Result<Tolds<InReports<'b, 'a>>, AllocError>
    ensures same { IfOk result (λ tolds. AreSame (flat_map (told_from None) sections.entry) tolds) }
    ensures ordered { IfOk result AreInOrder }
{
    let nothing = no_told();
    let places = places_in(alloc, &nothing, &sections)?;
    shared_tolds(alloc, InReports { sections, nothing }, places)
}
