//! Numbers of cells in order, each with a label.
ghost use Rattle.std.specs.Prelude.{◌≡◌, ◌≤◌, ◌≤ℤ◌, ◌+◌, ◌^◌, neg_ℤ, pos, IfOk, length};
ghost use Rattle.life_classes.specs.Tags.{AreFrom, AreLess, AreNumbersOf, AreOwnLabels, AreRisingTags, place_number};

use std::alloc::{AllocError, Global};

/// The difference between the number of a cell and that of the cell above it.
pub const ROW: i64 = 2_147_483_648;

/// The number of tags that are looked at one by one before larger steps are taken.
const SHORT: usize = 32;

/// A cell, given by its number, and its label: the place of a cell of the first generation, to whose class it belongs.
#[derive(Clone, Copy)]
pub struct Tag {
    pub number: i64,
    pub label: usize,
}

/// The number of a cell. It rises along each row and from row to row.
pub fn place_number(cell: (i32, i32)) -> i64
    ensures number { result ≡ place_number cell }
    ensures low { neg_ℤ (pos (2 ^ 62 + 2 ^ 31)) ≤ℤ result }
    ensures high { result ≤ℤ pos (2 ^ 62 + 2 ^ 31) }
{
    i64::from(cell.1) * ROW + i64::from(cell.0)
}

/// A place before which each tag has a smaller number: `near` if possible, or else the first.
#[inline(always)]
fn start_from(tags: &[Tag], near: usize, low: i64) -> usize
    requires rising { AreRisingTags tags.now }
    requires within { near ≤ length tags.now }
    ensures within { result ≤ length tags.now }
    ensures less { AreLess tags.now result low }
{
    if near == 0 {
        return 0;
    }
    if tags[near - 1].number >= low {
        return 0;
    }
    near
}

/// A place such that no number from there on is less than `low`. The steps of the search double, so it is not much
/// further than it has to be.
#[inline(always)]
fn leap(tags: &[Tag], from: usize, low: i64) -> usize
    requires rising { AreRisingTags tags.now }
    requires within { from ≤ length tags.now }
    ensures from { from ≤ result }
    ensures within { result ≤ length tags.now }
    ensures least { AreFrom tags.now result low }
{
    let mut step = 0;
    while step < tags.len() - from {
        if tags[from + step].number >= low {
            return from + step;
        }
        step = 2 * step + 1;
    }
    tags.len()
}

/// The place of the first tag whose number is not less than `low`, which is at one of the places from `first` to
/// `last`.
#[inline(always)]
fn place_between(tags: &[Tag], first: usize, last: usize, low: i64) -> usize
    requires rising { AreRisingTags tags.now }
    requires order { first ≤ last }
    requires within { last ≤ length tags.now }
    requires less { AreLess tags.now first low }
    requires least { AreFrom tags.now last low }
    ensures within { result ≤ length tags.now }
    ensures less { AreLess tags.now result low }
    ensures least { AreFrom tags.now result low }
{
    let mut from = first;
    let mut to = last;
    while from < to {
        let middle = from + (to - from) / 2;
        if tags[middle].number < low {
            from = middle + 1;
        } else {
            to = middle;
        }
    }
    from
}

/// The place of the first tag whose number is not less than `low`, if those before `from` have smaller ones.
fn far_place(tags: &[Tag], from: usize, low: i64) -> usize
    requires rising { AreRisingTags tags.now }
    requires within { from ≤ length tags.now }
    requires less { AreLess tags.now from low }
    ensures within { result ≤ length tags.now }
    ensures less { AreLess tags.now result low }
    ensures least { AreFrom tags.now result low }
{
    place_between(tags, from, leap(tags, from, low), low)
}

/// The place of the first tag whose number is not less than `low`. The search starts from `near`, which is usually
/// close if tags are looked up in order.
#[inline(always)]
pub fn place_of(tags: &[Tag], near: usize, low: i64) -> usize
    requires rising { AreRisingTags tags.now }
    requires within { near ≤ length tags.now }
    ensures within { result ≤ length tags.now }
    ensures less { AreLess tags.now result low }
    ensures least { AreFrom tags.now result low }
{
    let from = start_from(tags, near, low);
    let end = from + (tags.len() - from).min(SHORT);
    for at in from..end {
        if tags[at].number >= low {
            return at;
        }
    }
    far_place(tags, end, low)
}

/// The numbers of the cells, each with its place as its label.
pub fn tagged(alloc: Global, cells: &[(i32, i32)]) -> Result<Vec<Tag>, AllocError>
    ensures count { IfOk result (λ tags. length tags.items ≡ length cells.now) }
    ensures numbers { IfOk result (λ tags. AreNumbersOf cells.now (length tags.items) tags.items) }
    ensures own { IfOk result (λ tags. AreOwnLabels (length tags.items) tags.items) }
{
    let mut tags = Vec::with_capacity(alloc, cells.len())?;
    for label in 0..cells.len() {
        tags.push(Tag {
            number: place_number(cells[label]),
            label,
        })?;
    }
    Ok(tags)
}
