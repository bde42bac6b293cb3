//! The finest splitting of a plane's cells into classes that stay apart.
ghost use Rattle.std.specs.Prelude.{◌≡◌, ◌⊎◌, ◌≤◌, ◌+◌, All, AllPairs, IfOk, map};
ghost use Rattle.life_model.specs.Evolution.{generation};
ghost use Rattle.life_cells.specs.Limits.{IsPlace};
ghost use Rattle.life_objects.specs.Apart.{AreApartFor};
ghost use Rattle.life_objects.specs.Union.{generations, union_of};
ghost use Rattle.life_objects.specs.Whole.{StaysWhole};
ghost use Rattle.life_classes.specs.Splits.{IsLabelledSplit, classes_of_split};
ghost use Rattle.life_classes.specs.Tracking.{AreApartNow, AreFew, AreTracked, LeadTo, after, class_of_cell, first_sets, last_sets};

use crate::class::Class;
use crate::collecting::{collected, set_of};
use crate::labels::{first_label, labelled_alike};
use crate::split::{Split, are_few, first_split};
use crate::walking::onward;
use life_cells::Rule;
use life_plane::{AGE_LIMIT, Plane};
use std::alloc::{AllocError, Global};

/// The classes that have a cell at first.
fn classes_in(alloc: Global, split: &Split) -> Result<Vec<Class>, AllocError>
    requires { IsLabelledSplit split.now }
    ensures tracked { IfOk result (λ all. LeadTo (classes_of_split split.now) all.items) }
    ensures apart { IfOk result
        (λ all. AreApartNow (classes_of_split split.now) → AreApartNow all.items) }
{
    collected(alloc, split.forest.as_slice(), &split.first, &split.last)
}

/// The cells in classes of those that are near each other.
pub fn first_classes(alloc: Global, cells: &[(i32, i32)]) -> Result<Vec<Class>, AllocError>
    requires { All IsPlace cells.now }
    ensures tracked { IfOk result (λ all. LeadTo (map class_of_cell cells.now) all.items) }
    ensures apart { IfOk result (λ all. AreApartNow all.items) }
{
    let first = set_of(alloc, cells)?;
    let last = set_of(alloc, cells)?;
    let split = first_split(alloc, first, last)?;
    let all = classes_in(alloc, &split)?;
    Ok(all)
}

/// The plane `count` generations later.
fn stepped<P: Plane>(plane: P, rule: &Rule, count: u32) -> Result<P, AllocError>
    requires young { P.steps_made plane + count ≤ AGE_LIMIT }
    ensures { IfOk result (λ later. P.members later ≡ generation rule.now (P.members plane) count) }
{
    let mut plane = plane;
    for _ in 0..count {
        plane.step(rule)?;
    }
    Ok(plane)
}

/// The classes `count` generations later, if at most one of them has a cell left. The plane has their cells.
fn lone_class_later<P: Plane>(
    alloc: Global,
    split: Split,
    plane: P,
    rule: &Rule,
    count: u32,
) -> Result<Split, AllocError>
    requires labelled { IsLabelledSplit split }
    requires few { AreFew (classes_of_split split) }
    requires cells { split.last.cells ≡ P.members plane }
    requires young { P.steps_made plane + count ≤ AGE_LIMIT }
    ensures labelled { IfOk result IsLabelledSplit }
    ensures later { IfOk result
        (λ later. classes_of_split later ≡ map (after rule.now count) (classes_of_split split)) }
{
    let label = first_label(&split.last);
    let later = stepped(plane, rule, count)?;
    let cells = later.cells()?;
    let last = labelled_alike(alloc, cells, label)?;
    Ok(Split {
        first: split.first,
        last,
        forest: split.forest,
    })
}

/// The generation at which following a class by itself is first tried.
const FIRST_TRIAL: u32 = 16;

/// The generation of the next trial, where the last one was due at `trial`. From generation `before`, `made`
/// generations were made.
fn next_trial(trial: u32, before: u32, made: u32) -> u32
    requires before { before ≤ AGE_LIMIT }
    requires made { made ≤ AGE_LIMIT }
    ensures { trial ≤ result ⊎ before ≤ result }
{
    if before < trial {
        return trial;
    }
    if made > 1 {
        return before + made + FIRST_TRIAL;
    }
    2 * before
}

/// The classes after `bound` generations, joined where they came near each other. The plane has their cells.
fn followed_for<P: Plane>(
    alloc: Global,
    split: Split,
    plane: P,
    rule: &Rule,
    bound: u32,
) -> Result<Split, AllocError>
    requires labelled { IsLabelledSplit split }
    requires cells { split.last.cells ≡ P.members plane }
    requires tracked { AreTracked rule.now bound 0 (P.members plane) (classes_of_split split) }
    requires apart { AreApartNow (classes_of_split split) }
    requires young { P.steps_made plane + bound ≤ AGE_LIMIT }
    ensures labelled { IfOk result IsLabelledSplit }
    ensures tracked { IfOk result
        (λ end. AreTracked rule.now bound bound (P.members plane) (classes_of_split end)) }
    ensures apart { IfOk result (λ end. AreApartNow (classes_of_split end)) }
{
    let mut plane = plane;
    let mut split = split;
    let mut made = 0;
    let mut trial = FIRST_TRIAL;
    while made < bound {
        if are_few(&split) {
            let end = lone_class_later(alloc, split, plane, rule, bound - made)?;
            return Ok(end);
        }
        let walk = onward(alloc, split, plane, rule, bound - made, made >= trial)?;
        trial = next_trial(trial, made, walk.made);
        made += walk.made;
        split = walk.split;
        plane = walk.plane;
    }
    Ok(split)
}

/// The classes of a plane's cells that stay apart for `bound` generations, split as finely as possible: however the
/// cells split into two sets that stay apart for as long, each class lies in one of the two. A class that has died out
/// stays in the list, with no last cell.
pub fn classes<P: Plane>(
    alloc: Global,
    plane: P,
    rule: &Rule,
    bound: u32,
) -> Result<Vec<Class>, AllocError>
    requires young { P.steps_made plane + bound ≤ AGE_LIMIT }
    ensures together { IfOk result (λ all. union_of (first_sets all.items) ≡ P.members plane) }
    ensures whole { IfOk result
        (λ all. All (StaysWhole rule.now bound (P.members plane)) (first_sets all.items)) }
    ensures apart { IfOk result
        (λ all. AllPairs (AreApartFor rule.now bound) (first_sets all.items)) }
    ensures later { IfOk result
        (λ all. last_sets all.items ≡ generations rule.now (first_sets all.items) bound) }
{
    let first = plane.cells()?;
    let last = plane.cells()?;
    let split = first_split(alloc, first, last)?;
    let end = followed_for(alloc, split, plane, rule, bound)?;
    let all = classes_in(alloc, &end)?;
    Ok(all)
}

/// The classes of a plane's cells that stay apart for `bound` generations, as `classes` gives them. The plane is
/// unchanged. It is copied only if a generation is made.
pub fn classes_of<P: Plane>(
    alloc: Global,
    plane: &P,
    rule: &Rule,
    bound: u32,
) -> Result<Vec<Class>, AllocError>
    requires young { P.steps_made plane.now + bound ≤ AGE_LIMIT }
    ensures together { IfOk result
        (λ all. union_of (first_sets all.items) ≡ P.members plane.now) }
    ensures whole { IfOk result
        (λ all. All (StaysWhole rule.now bound (P.members plane.now)) (first_sets all.items)) }
    ensures apart { IfOk result
        (λ all. AllPairs (AreApartFor rule.now bound) (first_sets all.items)) }
    ensures later { IfOk result
        (λ all. last_sets all.items ≡ generations rule.now (first_sets all.items) bound) }
{
    if bound == 0 {
        let cells = plane.cells()?;
        let all = first_classes(alloc, cells.as_slice())?;
        return Ok(all);
    }
    let copy = plane.copy()?;
    let all = classes(alloc, copy, rule, bound)?;
    Ok(all)
}
