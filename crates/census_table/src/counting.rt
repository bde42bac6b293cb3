//! The kinds of objects: each code under a rule is one.
ghost use Rattle.std.specs.Prelude.{◌≡◌, ◌<◌, filter, length, map, reverse, slice_index_or, IfOk, OnOk};
ghost use Rattle.std.specs.Option.{option_copied};
ghost use Rattle.std.specs.List.Sorted.{IsPermutation, IsSorted};
ghost use Rattle.census_table.specs.Kinds.{AreKinds, count_cmp, has_no_name, left_in, same_kind, rank_cmp, same_pattern, share_of, total_of, with_share};
ghost use Rattle.census_table.specs.Grouping.{alone, before, grouped, joined, step_of, with_told};
ghost use Rattle.census_table.specs.Objects.{all_objects};
ghost use Rattle.census_table.specs.Places.{kind_at};

use crate::entry::Entry;
use crate::object::Object;
use crate::objects::{Objects, kind_order, no_object, objects_in_kinds};
use census_facts::Names;
use census_readback::Sections;
use std::alloc::{AllocError, Global};
use std::cmp::Ordering;
use std::marker::Model;

/// A kind of objects, in 24 bytes.
#[derive(Clone, Copy)]
pub struct Kind {
    /// The index of its first object.
    pub first: usize,
    /// The number of its objects, at most 2^64 - 1.
    pub count: u64,
    /// The number of patterns that it occurs in, at most 2^64 - 1.
    pub patterns: u64,
}

/// Kinds of objects, in an order of their own. Each is seen as the first of its objects, with its counts.
#[derive(Drop)]
pub struct Kinds<'b, 'a> {
    objects: Objects<'b, 'a>,
    kinds: Vec<Kind>,
    // A placeholder where there is no object. No kind has it.
    nothing: Object<'a>,
}

impl<'b, 'a> Model for Kinds<'b, 'a> {
    ghost use Rattle.std.specs.Prelude.{List, map};
    ghost use Rattle.census_table.specs.declared.object.Object.{Object};

    ghost Value = { List Object };

    ghost use Rattle.census_table.specs.Places.{kind_at};

    ghost view = { λ s. map (kind_at s.nothing s.objects) s.kinds.items };
}

// True where two objects have the same code under the same rule.
fn same_kind(object: &Object, other: &Object) -> bool
    ensures { result ≡ same_kind object.now other.now }
{
    object.code == other.code && object.rule == other.rule
}

// True where these are the same pattern.
fn same_pattern(entry: &Entry, other: &Entry) -> bool
    ensures { result ≡ same_pattern entry.now other.now }
{
    entry.collection == other.collection && entry.pattern == other.pattern
}

// An object with `count` others of its kind after it. Together they occur in `patterns` patterns.
fn before<'a>(object: &Object<'a>, count: u64, patterns: u64) -> Object<'a>
    ensures { result ≡ before object.now count patterns }
{
    Object {
        count: object.count.saturating_add(count),
        patterns,
        ..*object
    }
}

// An object that is the only one of its kind so far, counting from the last object.
fn alone<'a>(object: &Object<'a>) -> Object<'a>
    ensures { result ≡ alone object.now }
{
    before(object, 0, 1)
}

// The number of patterns that an object adds to its kind. It comes before the objects already counted.
fn step_of(object: &Object, kind: &Object) -> u64
    ensures { result ≡ step_of object.now kind.now }
{
    if same_pattern(&object.first, &kind.first) {
        0
    } else {
        1
    }
}

// A kind with one more object, which comes before the objects already counted.
fn joined<'a>(object: &Object<'a>, kind: &Object<'a>) -> Object<'a>
    ensures { result ≡ joined object.now kind.now }
{
    let patterns = step_of(object, kind).saturating_add(kind.patterns);
    before(object, kind.count, patterns)
}

// The kind whose first object, with its counts, is this one at this index.
fn kind_of(index: usize, object: &Object) -> Kind
    ensures first { result.first ≡ index }
    ensures count { result.count ≡ object.now.count }
    ensures patterns { result.patterns ≡ object.now.patterns }
{
    Kind {
        first: index,
        count: object.count,
        patterns: object.patterns,
    }
}

// The first object of a kind, with the kind's counts.
fn kind_at<'a>(nothing: &Object<'a>, objects: &Objects<'_, 'a>, kind: Kind) -> Object<'a>
    ensures { result ≡ kind_at nothing.now objects.now kind }
{
    let object = objects.object_or(nothing, kind.first);
    Object {
        count: kind.count,
        patterns: kind.patterns,
        ..object
    }
}

// Counts the object at an index. It comes before the objects already counted; counting goes from the last object to the
// first.
fn take_in(
    nothing: &Object,
    objects: &Objects,
    kinds: &mut Vec<Kind>,
    index: usize,
) -> Result<(), AllocError>
    ensures { OnOk result (reverse (map (kind_at nothing.now objects.now) kinds.new.items)
        ≡ with_told (slice_index_or objects.now index nothing.now)
        (reverse (map (kind_at nothing.now objects.now) kinds.old.items))) }
{
    let object = objects.object_or(nothing, index);
    if let Some(kind) = kinds.pop() {
        let last = kind_at(nothing, objects, kind);
        if same_kind(&object, &last) {
            kinds.push(kind_of(index, &joined(&object, &last)))?;
            return Ok(());
        }
        kinds.push(kind)?;
    }
    kinds.push(kind_of(index, &alone(&object)))?;
    Ok(())
}

// The kinds of objects that are in the order of kinds, the last kind first.
fn grouped(alloc: Global, nothing: &Object, objects: &Objects) -> Result<Vec<Kind>, AllocError>
    ensures { IfOk result (λ kinds.
        reverse (map (kind_at nothing.now objects.now) kinds.items) ≡ grouped objects.now) }
{
    // There is room for a kind of each object, so that none is moved: memory that is not touched costs nothing.
    let mut kinds = Vec::with_capacity(alloc, objects.len())?;
    let mut left = objects.len();
    while left > 0 {
        left -= 1;
        take_in(nothing, objects, &mut kinds, left)?;
    }
    Ok(kinds)
}

// The order of two counts: the greater comes first, or under `rare` the smaller.
fn rank_order(rare: bool, one: u64, other: u64) -> Ordering
    ensures { result ≡ rank_cmp rare one other }
{
    if rare {
        one.cmp(&other)
    } else {
        other.cmp(&one)
    }
}

// The order of two kinds: by their counts, and then by the order of kinds.
fn count_order(
    rare: bool,
    nothing: &Object,
    objects: &Objects,
    one: &Kind,
    other: &Kind,
) -> Ordering
    ensures { result ≡ count_cmp rare (kind_at nothing.now objects.now one.now)
        (kind_at nothing.now objects.now other.now) }
{
    match rank_order(rare, one.count, other.count) {
        Ordering::Equal => {
            let object = kind_at(nothing, objects, *one);
            kind_order(&object, &kind_at(nothing, objects, *other))
        }
        counts => counts,
    }
}

// Sorts kinds by falling count, or under `rare` by rising count, and then in the order of kinds.
fn sort_kinds(rare: bool, nothing: &Object, objects: &Objects, kinds: &mut Vec<Kind>)
    ensures permutation { IsPermutation (map (kind_at nothing.now objects.now) kinds.old.items)
        (map (kind_at nothing.now objects.now) kinds.new.items) }
    ensures sorted { IsSorted (count_cmp rare) (map (kind_at nothing.now objects.now) kinds.new.items) }
{
    kinds.sort_unstable_by(|one, other| count_order(rare, nothing, objects, one, other));
}

// The number of objects of these kinds together, at most 2^64 - 1.
fn count_all(nothing: &Object, objects: &Objects, kinds: &[Kind]) -> u64
    ensures { result ≡ total_of (map (kind_at nothing.now objects.now) kinds.now) }
{
    let mut total: u64 = 0;
    for kind in kinds {
        total = total.saturating_add(kind.count);
    }
    total
}

// The kinds among these whose codes have no name.
fn unnamed_in<'a>(
    alloc: Global,
    names: &Names,
    nothing: &Object<'a>,
    objects: &Objects<'_, 'a>,
    kinds: &[Kind],
) -> Result<Vec<Kind>, AllocError>
    ensures { IfOk result (λ left. map (kind_at nothing.now objects.now) left.items
        ≡ filter (has_no_name names.now) (map (kind_at nothing.now objects.now) kinds.now)) }
{
    let mut left = Vec::new(alloc);
    for kind in kinds {
        let object = kind_at(nothing, objects, *kind);
        if names.name_of(object.code).is_none() {
            left.push(*kind)?;
        }
    }
    Ok(left)
}

impl<'b, 'a> Kinds<'b, 'a> {
    /// The number of kinds.
    pub fn len(&self) -> usize
        ensures { result ≡ length self.now }
    {
        self.kinds.len()
    }

    /// The number of objects of all kinds together, at most 2^64 - 1.
    pub fn total(&self) -> u64
        ensures { result ≡ total_of self.now }
    {
        count_all(&self.nothing, &self.objects, self.kinds.as_slice())
    }

    /// The first object of the kind at this index, with the kind's counts.
    pub fn kind(&self, index: usize) -> Object<'a>
        requires { index < length self.now }
        ensures { result ≡ slice_index_or self.now index result }
    {
        kind_at(&self.nothing, &self.objects, self.kinds[index])
    }
}

/// The kinds of the objects of collections that are numbered from 1, each with the number of its objects and the number of
/// patterns that it occurs in. They are sorted by falling count, or under `rare` by rising count, and then in the order of
/// kinds. The only error is out of memory.
pub fn kinds_of<'b, 'a>(
    alloc: Global,
    rare: bool,
    sections: Sections<'b, 'a>,
) -> Result<Kinds<'b, 'a>, AllocError>
    ensures { IfOk result (λ kinds. AreKinds rare (all_objects 1 sections.entry) kinds) }
{
    let objects = objects_in_kinds(alloc, sections)?;
    let nothing = no_object();
    let mut kinds = grouped(alloc, &nothing, &objects)?;
    sort_kinds(rare, &nothing, &objects, &mut kinds);
    Ok(Kinds {
        objects,
        kinds,
        nothing,
    })
}

/// These kinds, or if they are to be `unnamed` and there are names, only those without a name. The only error is out of memory.
pub fn left_in<'b, 'a>(
    alloc: Global,
    names: Option<&Names>,
    unnamed: bool,
    kinds: Kinds<'b, 'a>,
) -> Result<Kinds<'b, 'a>, AllocError>
    ensures { IfOk result (λ left. left ≡ left_in (option_copied names.entry) unnamed kinds.entry) }
{
    match names {
        Some(names) if unnamed => {
            let left = unnamed_in(
                alloc,
                names,
                &kinds.nothing,
                &kinds.objects,
                kinds.kinds.as_slice(),
            )?;
            Ok(Kinds {
                kinds: left,
                ..kinds
            })
        }
        _ => Ok(kinds),
    }
}

// The share of `count` objects in `total`, in millionths, rounded to the nearest. A half is rounded up.
fn share_of(count: u64, total: u64) -> u64
    ensures { result ≡ share_of count total }
{
    if total == 0 {
        return 0;
    }
    let (count, total) = (u128::from(count), u128::from(total));
    let millionths = (2_000_000 * count + total) / (2 * total);
    millionths.min(1_000_000) as u64
}

/// A kind with its share of `total` objects.
pub fn with_share<'a>(total: u64, kind: &Object<'a>) -> Object<'a>
    ensures { result ≡ with_share total kind.now }
{
    Object {
        share: share_of(kind.count, total),
        ..*kind
    }
}
