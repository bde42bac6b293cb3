//! The labels of cells of the next generation, found from those of the generation before in one sweep.
ghost use Rattle.std.specs.Prelude.{◌≡◌, ◌≤ℤ◌, ◌≤◌, ◌<◌, ◌-◌, ◌+◌, ◌+ℤ◌, ◌^◌, ℕ, neg_ℤ, pos, false, true, All, Contains, IfNone, IfOk, IfSome, OnOk, length};
ghost use Rattle.life_model.specs.Generation as generations;
ghost use Rattle.life_model.specs.Generation.{contains};
ghost use Rattle.life_cells.specs.Limits.{IsPlace};
ghost use Rattle.life_classes.specs.Labels.{AreBornOrOld, AreHeirs, AreLabelled, AreReached, IsLabelOf, IsTagged};
ghost use Rattle.life_classes.specs.Nearness.{reaches};
ghost use Rattle.life_classes.specs.Tags.{AreRisingTags, HasNoneBeside, HasNoneFrom, IsBeside, IsFrom};

use crate::forest::root;
use crate::labels::Labelled;
use crate::tags::{ROW, Tag, place_number, place_of};
use life_cells::CellList;
use std::alloc::{AllocError, Global};

/// Cells with labels, and the places of the cells that were not there in the generation before.
#[derive(Drop)]
pub struct Heirs {
    pub cells: Labelled,
    pub born: Vec<usize>,
}

/// The label that a cell takes, and whether the cell is new in this generation.
#[derive(Clone, Copy)]
struct Heir {
    label: usize,
    is_born: bool,
}

/// The places where the last searches for a tag beside a cell ended: in its row, above it and below it.
#[derive(Drop)]
struct Cursors {
    level: usize,
    above: usize,
    below: usize,
}

/// The place of the first tag with a number from `low` to `low + 2`, if there is one.
#[inline(always)]
fn place_from(tags: &[Tag], low: i64, cursor: &mut usize) -> Option<usize>
    requires rising { AreRisingTags tags.now }
    requires small { low ≤ℤ pos (2 ^ 63 - 3) }
    requires within { cursor.old ≤ length tags.now }
    ensures within { cursor.new ≤ length tags.now }
    ensures found { IfSome result (IsFrom tags.now low) }
    ensures none { IfNone result (HasNoneFrom tags.now low) }
{
    let at = place_of(tags, *cursor, low);
    *cursor = at;
    if at >= tags.len() {
        return None;
    }
    if tags[at].number > low + 2 {
        return None;
    }
    Some(at)
}

/// The place of a tag whose number is at most one away from this one, if there is one. A tag with this very number is
/// preferred.
#[inline(always)]
fn place_level(tags: &[Tag], number: i64, cursor: &mut usize) -> Option<usize>
    requires rising { AreRisingTags tags.now }
    requires low { neg_ℤ (pos (2 ^ 62 + 2 ^ 31)) ≤ℤ number }
    requires high { number ≤ℤ pos (2 ^ 62 + 2 ^ 31) }
    requires within { cursor.old ≤ length tags.now }
    ensures within { cursor.new ≤ length tags.now }
    ensures found { IfSome result (IsFrom tags.now (number +ℤ neg_ℤ (pos 1))) }
    ensures none { IfNone result (HasNoneFrom tags.now (number +ℤ neg_ℤ (pos 1))) }
{
    let near = *cursor;
    if near < tags.len() && tags[near].number == number {
        *cursor = near + 1;
        return Some(near);
    }
    let at = place_of(tags, near, number);
    *cursor = at;
    if at < tags.len() && tags[at].number <= number + 1 {
        if tags[at].number == number {
            *cursor = at + 1;
        }
        return Some(at);
    }
    if at > 0 && tags[at - 1].number >= number - 1 {
        return Some(at - 1);
    }
    None
}

/// The place of a tag whose number is at most one away from this one, or from that of the cell above or below it.
#[inline(always)]
fn place_beside(tags: &[Tag], number: i64, cursors: &mut Cursors) -> Option<usize>
    requires rising { AreRisingTags tags.now }
    requires low { neg_ℤ (pos (2 ^ 62 + 2 ^ 31)) ≤ℤ number }
    requires high { number ≤ℤ pos (2 ^ 62 + 2 ^ 31) }
    requires level { cursors.old.level ≤ length tags.now }
    requires above { cursors.old.above ≤ length tags.now }
    requires below { cursors.old.below ≤ length tags.now }
    ensures level { cursors.new.level ≤ length tags.now }
    ensures above { cursors.new.above ≤ length tags.now }
    ensures below { cursors.new.below ≤ length tags.now }
    ensures found { IfSome result (IsBeside tags.now number) }
    ensures none { IfNone result (HasNoneBeside tags.now number) }
{
    if let Some(at) = place_level(tags, number, &mut cursors.level) {
        return Some(at);
    }
    let low = number - 1;
    if let Some(at) = place_from(tags, low - ROW, &mut cursors.above) {
        return Some(at);
    }
    if let Some(at) = place_from(tags, low + ROW, &mut cursors.below) {
        return Some(at);
    }
    None
}

/// The label of a cell that is at most one away from this one, and whether this one is born.
#[inline(always)]
fn heir_of(old: &Labelled, cell: (i32, i32), cursors: &mut Cursors) -> Heir
    requires tagged { IsTagged old.now }
    requires placed { IsPlace cell }
    requires reached { reaches 1 old.now.cells cell ≡ true }
    requires level { cursors.old.level ≤ length old.now.tags.items }
    requires above { cursors.old.above ≤ length old.now.tags.items }
    requires below { cursors.old.below ≤ length old.now.tags.items }
    ensures level { cursors.new.level ≤ length old.now.tags.items }
    ensures above { cursors.new.above ≤ length old.now.tags.items }
    ensures below { cursors.new.below ≤ length old.now.tags.items }
    ensures label { IsLabelOf old.now cell result.label }
    ensures old { result.is_born ≡ false → contains old.now.cells cell ≡ true }
{
    let number = place_number(cell);
    match place_beside(old.tags.as_slice(), number, cursors) {
        Some(at) => Heir {
            label: old.tags[at].label,
            is_born: old.tags[at].number != number,
        },
        None => Heir {
            label: 0,
            is_born: true,
        },
    }
}

/// Lists a place if its cell is born.
#[inline(always)]
fn list_born(born: &mut Vec<usize>, place: usize, is_born: bool) -> Result<(), AllocError>
    ensures kept { OnOk result ((k : ℕ) → Contains born.old.items k → Contains born.new.items k) }
    ensures listed { OnOk result (is_born ≡ true → Contains born.new.items place) }
    ensures within { OnOk result (All (λ k. k < place) born.old.items → All (λ k. k < place + 1) born.new.items) }
{
    if is_born {
        born.push(place)?;
    }
    Ok(())
}

/// The cells of the next generation, each with the root of the label of one that is at most one away.
pub fn inherited(
    alloc: Global,
    old: &Labelled,
    forest: &[usize],
    cells: CellList,
) -> Result<Heirs, AllocError>
    requires labelled { AreLabelled old.now forest.now }
    requires reached { AreReached old.now cells }
    ensures cells { IfOk result (λ new. new.cells.cells ≡ cells) }
    ensures labelled { IfOk result (λ new. AreLabelled new.cells forest.now) }
    ensures heirs { IfOk result (λ new. AreHeirs old.now forest.now (generations.cells cells)
        (length (generations.cells cells)) new.cells.tags.items) }
    ensures born { IfOk result (λ new. AreBornOrOld old.now (generations.cells cells)
        (length (generations.cells cells)) new.born.items) }
    ensures within { IfOk result (λ new. All (λ k. k < length new.cells.tags.items) new.born.items) }
{
    let mut tags = Vec::with_capacity(alloc, cells.len())?;
    let mut born = Vec::new(alloc);
    let mut cursors = Cursors {
        level: 0,
        above: 0,
        below: 0,
    };
    for cell in cells.as_slice() {
        let heir = heir_of(old, *cell, &mut cursors);
        list_born(&mut born, tags.len(), heir.is_born)?;
        tags.push(Tag {
            number: place_number(*cell),
            label: root(forest, heir.label),
        })?;
    }
    Ok(Heirs {
        cells: Labelled { cells, tags },
        born,
    })
}
