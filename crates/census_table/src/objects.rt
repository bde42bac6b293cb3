//! The objects in reports, held by their places.
ghost use Rattle.std.specs.Prelude.{◌≡◌, ◌<◌, ◌≤◌, ◌+◌, ◌^◌, ◌++◌, [], filter, length, map, slice_index_or, IfOk, OnOk};
ghost use Rattle.std.specs.Option.{option_or};
ghost use Rattle.std.specs.List.{cons_option};
ghost use Rattle.std.specs.List.Sorted.{IsPermutation};
ghost use Rattle.std.specs.Cmp.Lexicographic.{slice_cmp};
ghost use Rattle.std.specs.Ordering.{nat_cmp, ordering_then};
ghost use Rattle.census_table.specs.Grouping.{AreInKinds};
ghost use Rattle.census_table.specs.Kinds.{capped, kind_cmp, same_kind};
ghost use Rattle.census_table.specs.Objects.{all_objects, section_objects};
ghost use Rattle.census_table.specs.Places.{entry_at, key_at, object_at, place_cmp, row_in, told_at, told_in, AreBefore, AreRising};
ghost use Rattle.census_table.specs.declared.object.Object.{Object};

use crate::entry::{Entry, entry_of_row};
use crate::object::{Object, code_in, object_of_row, rule_in};
use crate::place::{OrderAtPlaces, Place, put_in_order};
use census_readback::Sections;
use census_rows::{Outcome, Row, Section};
use std::alloc::{AllocError, Global};
use std::cmp::Ordering;
use std::marker::Model;

/// The objects in reports, in an order of their own. For each object its place is held, in 12 bytes.
#[derive(Drop)]
pub struct Objects<'b, 'a> {
    sections: Sections<'b, 'a>,
    places: Vec<Place>,
    // A placeholder where no object is reported. No place has it.
    nothing: Object<'a>,
}

impl<'b, 'a> Model for Objects<'b, 'a> {
    ghost use Rattle.std.specs.Prelude.{List, map};
    ghost use Rattle.census_table.specs.declared.object.Object.{Object};

    ghost Value = { List Object };

    ghost use Rattle.census_table.specs.Places.{object_at};

    ghost view = { λ s. map (object_at s.nothing s.sections) s.places.items };
}

// The row at this index. After the last one there are `end` rows.
fn row_in<'a>(rows: &Section<'_, 'a>, index: usize) -> Row<'a>
    ensures { result ≡ row_in rows.now index }
{
    if index < rows.len() {
        rows.row(index)
    } else {
        Row::End {
            collections: 0,
            patterns: 0,
        }
    }
}

// The row at this index of a collection. If there is no such collection, it is an `end` row.
fn row_at<'a>(sections: &Sections<'_, 'a>, collection: usize, index: usize) -> Row<'a>
    ensures { result ≡ row_in (slice_index_or sections.now collection []) index }
{
    if collection < sections.len() {
        row_in(&sections.section(collection), index)
    } else {
        Row::End {
            collections: 0,
            patterns: 0,
        }
    }
}

// The pattern of the line at this index, in a collection that has this number.
fn entry_at<'a>(number: u64, rows: &Section<'_, 'a>, index: usize) -> Option<Entry<'a>>
    ensures { result ≡ entry_at number rows.now index }
{
    entry_of_row(number, &row_in(rows, 0), &row_in(rows, index))
}

// The object that the row at index `row` of a collection reports for the pattern of the row at index `under`. Collections are
// numbered from 1.
fn told_in<'a>(
    sections: &Sections<'_, 'a>,
    collection: usize,
    under: usize,
    row: usize,
) -> Option<Object<'a>>
    ensures { result ≡ told_in (collection + 1) (slice_index_or sections.now collection []) under row }
{
    if collection >= sections.len() {
        return None;
    }
    let rows = sections.section(collection);
    let number = (collection + 1) as u64;
    let entry = entry_at(number, &rows, under);
    object_of_row(&entry, &row_in(&rows, row))
}

// The object that is reported at a place.
fn told_at<'a>(sections: &Sections<'_, 'a>, place: Place) -> Option<Object<'a>>
    ensures { result ≡ told_at sections.now place }
{
    told_in(
        sections,
        place.collection as usize,
        place.under as usize,
        place.row as usize,
    )
}

// The code that is reported at a place, or the code of this object if there is none.
fn code_at<'a>(nothing: &Object<'a>, sections: &Sections<'_, 'a>, place: &Place) -> &'a [u8]
    ensures { result ≡ (key_at nothing.now sections.now place.now).code }
{
    let row = row_at(sections, place.collection as usize, place.row as usize);
    code_in(&row).unwrap_or(nothing.code)
}

// The rule of the line to which a place belongs, or the rule of this object if there is none.
fn rule_at<'a>(nothing: &Object<'a>, sections: &Sections<'_, 'a>, place: &Place) -> &'a [u8]
    ensures { result ≡ (key_at nothing.now sections.now place.now).rule }
{
    let line = row_at(sections, place.collection as usize, place.under as usize);
    rule_in(&line).unwrap_or(nothing.rule)
}

// The code that is reported at a place, under its rule.
fn key_at<'a>(nothing: &Object<'a>, sections: &Sections<'_, 'a>, place: Place) -> Object<'a>
    ensures { result ≡ key_at nothing.now sections.now place }
{
    Object {
        rule: rule_at(nothing, sections, &place),
        code: code_at(nothing, sections, &place),
        ..*nothing
    }
}

// The object that is reported at a place. If there is none, it is `nothing` with the code and the rule that are there.
fn object_at<'a>(nothing: &Object<'a>, sections: &Sections<'_, 'a>, place: Place) -> Object<'a>
    ensures { result ≡ object_at nothing.now sections.now place }
{
    match told_at(sections, place) {
        Some(object) => object,
        None => key_at(nothing, sections, place),
    }
}

/// The order of the kinds of two objects.
pub fn kind_order(object: &Object, other: &Object) -> Ordering
    ensures { result ≡ kind_cmp object.now other.now }
{
    let codes = object.code.cmp(other.code);
    let rules = object.rule.cmp(other.rule);
    let lengths = object.code.len().cmp(&other.code.len());
    lengths.then(codes.then(rules))
}

// The order of two codes: the shorter one comes first, and codes of equal length are ordered by their bytes.
fn code_order(code: &[u8], other: &[u8]) -> Ordering
    ensures { result ≡ ordering_then (nat_cmp (length code.now) (length other.now))
        (slice_cmp nat_cmp code.now other.now) }
{
    match code.len().cmp(&other.len()) {
        Ordering::Equal => code.cmp(other),
        lengths => lengths,
    }
}

// The order of the kinds at two places. Rules are unpacked only if the codes are the same.
fn key_order(nothing: &Object, sections: &Sections, one: &Place, other: &Place) -> Ordering
    ensures { result ≡ kind_cmp (key_at nothing.now sections.now one.now)
        (key_at nothing.now sections.now other.now) }
{
    let code = code_at(nothing, sections, one);
    match code_order(code, code_at(nothing, sections, other)) {
        Ordering::Equal => {
            let rule = rule_at(nothing, sections, one);
            rule.cmp(rule_at(nothing, sections, other))
        }
        codes => codes,
    }
}

// The order of the kinds of the objects at two places.
fn told_order(nothing: &Object, sections: &Sections, one: &Place, other: &Place) -> Ordering
    ensures { result ≡ kind_cmp (object_at nothing.now sections.now one.now)
        (object_at nothing.now sections.now other.now) }
{
    key_order(nothing, sections, one, other)
}

// The order of the kinds of objects at places of collections.
#[derive(Drop)]
struct ByKind<'s, 'b, 'a> {
    nothing: &'s Object<'a>,
    sections: &'s Sections<'b, 'a>,
}

impl<'s, 'b, 'a> OrderAtPlaces for ByKind<'s, 'b, 'a> {
    ghost use Rattle.census_table.specs.Kinds.{kind_cmp};
    ghost use Rattle.census_table.specs.Places.{object_at};
    ghost use Rattle.census_table.specs.KindLaws.{kinds_at_total};

    ghost cmp = { λ by p q. kind_cmp (object_at by.nothing.now by.sections.now p)
        (object_at by.nothing.now by.sections.now q) };

    ghost total = { λ by. kinds_at_total (object_at by.nothing.now by.sections.now) };

    fn order(&self, one: &Place, other: &Place) -> Ordering {
        told_order(self.nothing, self.sections, one, other)
    }
}

// Puts rising places in the order of the kinds of their objects. Places of one kind keep their order.
fn sort_places(nothing: &Object, sections: &Sections, places: &mut [Place])
    requires { AreRising places.old }
    ensures permutation { IsPermutation (map (object_at nothing.now sections.now) places.old)
        (map (object_at nothing.now sections.now) places.new) }
    ensures stable { (kind : Object) →
        filter (same_kind kind) (map (object_at nothing.now sections.now) places.new)
        ≡ filter (same_kind kind) (map (object_at nothing.now sections.now) places.old) }
    ensures sorted { AreInKinds (map (object_at nothing.now sections.now) places.new) }
{
    put_in_order(&ByKind { nothing, sections }, places);
}

impl<'b, 'a> Objects<'b, 'a> {
    /// The number of objects.
    pub fn len(&self) -> usize
        ensures { result ≡ length self.now }
    {
        self.places.len()
    }

    /// The object at this index.
    pub fn object(&self, index: usize) -> Object<'a>
        requires { index < length self.now }
        ensures { result ≡ slice_index_or self.now index result }
    {
        object_at(&self.nothing, &self.sections, self.places[index])
    }

    /// The object at this index, or another one where there is none.
    pub fn object_or(&self, nothing: &Object<'a>, index: usize) -> Object<'a>
        ensures { result ≡ slice_index_or self.now index nothing.now }
    {
        if index < self.len() {
            self.object(index)
        } else {
            *nothing
        }
    }
}

// The index of the line of the pattern to which the row at an index belongs, where `line` is that of the row before it.
fn line_at(number: u64, rows: &Section, row: usize, line: usize) -> usize
    ensures { entry_at number rows.now result
        ≡ option_or (entry_at number rows.now row) (entry_at number rows.now line) }
{
    match entry_at(number, rows, row) {
        Some(_) => row,
        None => line,
    }
}

// The number of objects that the row at index `row` of a collection reports for the pattern of the row at index `under`: 0 or
// 1.
fn count_at(sections: &Sections, collection: usize, under: usize, row: usize) -> usize
    ensures count { result ≡ length (cons_option
        (told_in (collection + 1) (slice_index_or sections.now collection []) under row) []) }
    ensures few { result ≤ 1 }
{
    match told_in(sections, collection, under, row) {
        Some(_) => 1,
        None => 0,
    }
}

// The number of objects in the collection at this index.
fn count_section(sections: &Sections, collection: usize) -> usize
    requires within { collection < length sections.now }
    requires few { collection + 1 < 2 ^ 64 }
    ensures { result
        ≡ length (section_objects (collection + 1) (slice_index_or sections.now collection [])) }
{
    let rows = sections.section(collection);
    let number = (collection + 1) as u64;
    let mut count = 0;
    let mut line = 0;
    for row in 1..rows.len() {
        line = line_at(number, &rows, row, line);
        let more = count_at(sections, collection, line, row);
        count += more;
    }
    count
}

// The number of objects in all collections, at most 2^64 - 1.
fn count_objects(sections: &Sections) -> usize
    ensures { result ≡ capped (length (all_objects 1 sections.now)) }
{
    let mut count: usize = 0;
    for collection in 0..sections.len() {
        count = count.saturating_add(count_section(sections, collection));
    }
    count
}

// Adds a place if an object is reported there.
fn push_place(
    nothing: &Object,
    sections: &Sections,
    place: Place,
    places: &mut Vec<Place>,
) -> Result<(), AllocError>
    ensures told { OnOk result (map (object_at nothing.now sections.now) places.new.items
        ≡ map (object_at nothing.now sections.now) places.old.items
        ++ cons_option (told_at sections.now place) []) }
    ensures placed { OnOk result (AreBefore place.collection place.row places.old.items
        → AreBefore place.collection (place.row + 1) places.new.items) }
{
    if told_at(sections, place).is_some() {
        places.push(place)?;
    }
    Ok(())
}

// Adds the places of the objects of the collection at this index.
fn add_section(
    nothing: &Object,
    sections: &Sections,
    collection: usize,
    places: &mut Vec<Place>,
) -> Result<(), AllocError>
    requires within { collection < length sections.now }
    requires few { collection + 1 < 2 ^ 64 }
    ensures told { OnOk result (map (object_at nothing.now sections.now) places.new.items
        ≡ map (object_at nothing.now sections.now) places.old.items
        ++ section_objects (collection + 1) (slice_index_or sections.now collection [])) }
    ensures placed { OnOk result (AreBefore collection 0 places.old.items
        → AreBefore (collection + 1) 0 places.new.items) }
{
    let rows = sections.section(collection);
    let number = (collection + 1) as u64;
    let mut line = 0;
    for row in 1..rows.len() {
        line = line_at(number, &rows, row, line);
        let place = Place::of(collection, line, row)?;
        push_place(nothing, sections, place, places)?;
    }
    Ok(())
}

/// An object of no pattern.
pub fn no_object<'a>() -> Object<'a> {
    let first = Entry {
        collection: 0,
        collection_name: &[],
        pattern: 0,
        name: &[],
        outcome: Outcome::Bad { fault: 0 },
        way: None,
    };
    Object {
        first,
        rule: &[],
        code: &[],
        count: 0,
        patterns: 0,
        share: 0,
    }
}

// The places of the objects of collections that are numbered from 1, pattern by pattern.
fn places_in(alloc: Global, nothing: &Object, sections: &Sections) -> Result<Vec<Place>, AllocError>
    ensures told { IfOk result (λ places. map (object_at nothing.now sections.now) places.items
        ≡ all_objects 1 sections.now) }
    ensures rising { IfOk result (λ places. AreRising places.items) }
{
    let mut places = Vec::with_capacity(alloc, count_objects(sections))?;
    for collection in 0..sections.len() {
        add_section(nothing, sections, collection, &mut places)?;
    }
    Ok(places)
}

/// The objects of collections that are numbered from 1, in the order of their kinds. Objects of one kind are ordered pattern
/// by pattern. The only error is out of memory.
pub fn objects_in_kinds<'b, 'a>(
    alloc: Global,
    sections: Sections<'b, 'a>,
) -> Result<Objects<'b, 'a>, AllocError>
    ensures permutation { IfOk result (λ objects. IsPermutation (all_objects 1 sections.entry) objects) }
    ensures stable { IfOk result (λ objects. (kind : Object) →
        filter (same_kind kind) objects ≡ filter (same_kind kind) (all_objects 1 sections.entry)) }
    ensures sorted { IfOk result (λ objects. AreInKinds objects) }
{
    let nothing = no_object();
    let mut places = places_in(alloc, &nothing, &sections)?;
    sort_places(&nothing, &sections, places.as_mut_slice());
    Ok(Objects {
        sections,
        places,
        nothing,
    })
}
