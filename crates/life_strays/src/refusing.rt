//! Using strays to show that a plane's cells are no ash and don't grow.
ghost use Rattle.std.specs.Prelude.{◌≡◌, ℕ, ◌*◌, ◌+◌, ◌≤◌, All, IfOk, List, true};
ghost use Rattle.std.specs.Bool.{OnTrue};
ghost use Rattle.std.specs.List.{Contains};
ghost use Rattle.life_model.specs.Cell.{Cell};
ghost use Rattle.life_model.specs.Generation.{Generation, contains};
ghost use Rattle.life_model.specs.Rule.{Rule as ModelRule};
ghost use Rattle.life_growth.specs.Growth.{IsGrowth};
ghost use Rattle.life_objects.specs.Ash.{IsAsh};
ghost use Rattle.life_strays.specs.Strays.{IsIslandNow, LeavesStrays};
ghost use Rattle.life_strays.specs.declared.stray.Stray.{Stray};

use crate::choosing::{LOOK, chosen, chosen_for_ash, take_first};
use crate::islands::islands_of;
use crate::stray::Stray;
use crate::straying::strays_of;
use crate::trailing::{first_told, later_told, some_tell};
use life_cells::{CellList, Rule};
use life_classes::{Class, reaches};
use life_plane::{AGE_LIMIT, Plane};
use std::alloc::{AllocError, Global};

/// The number of islands that are followed to show that there is no growth, where one alone does not show it.
const SOME: u32 = 2;

/// The cells that hang on islands are looked for next to about this many of the islands' cells. Those that hang on others are
/// left out.
const MANY: u32 = 64;

/// The cells that hang on an island that is followed alone are looked for next to about this many of its cells.
const FEW: u32 = 32;

/// The number of generations for which an island that is followed alone is checked for recurring in place.
const SHORT: u32 = 16;

/// True if it is shown that a plane's cells are no ash within the bound: each time that an island of theirs comes back, moved,
/// some of the cells that then hang on it are, moved back, not among these cells. That need not be so in all generations, only
/// in those of the later half of the bound, or in those from twice the bound to three times. One island is followed first, and
/// then a few more.
pub fn are_no_ash<P: Plane>(
    alloc: Global,
    plane: &P,
    rule: &Rule,
    bound: u32,
) -> Result<bool, AllocError>
    requires young { P.steps_made plane.now + bound ≤ AGE_LIMIT }
    ensures { IfOk result (λ no. OnTrue no ((parts : List Generation) →
        IsAsh rule.now bound (P.members plane.now) parts → ⊥)) }
{
    let islands = islands_of(alloc, plane, rule)?;
    let mut others = chosen_for_ash(alloc, plane, rule, islands, bound)?;
    if others.is_empty() {
        return Ok(false);
    }
    let mut first = Vec::new(alloc);
    take_first(&mut others, &mut first)?;
    let mut later = plane.copy()?;
    let mut trails = first_told(alloc, plane, &mut later, rule, first, bound)?;
    if some_tell(trails.as_slice()) {
        return Ok(true);
    }
    later = plane.copy()?;
    let mut more = first_told(alloc, plane, &mut later, rule, others, bound)?;
    if some_tell(more.as_slice()) {
        return Ok(true);
    }
    if AGE_LIMIT < plane.age() + 3 * bound {
        return Ok(false);
    }
    trails.append(&mut more)?;
    let told = later_told(alloc, plane, &mut later, rule, trails, bound)?;
    if !told {
        return Ok(false);
    }
    Ok(true)
}

/// True if the sets have a cell in common.
fn meet(set: &CellList, other: &CellList) -> bool
    ensures { OnTrue result ((c : Cell) × (contains set.now c ≡ true) × (contains other.now c ≡ true)) }
{
    for cell in set.as_slice() {
        if reaches(0, other, *cell) {
            return true;
        }
    }
    false
}

/// True if a cell that hangs on one of the strays is in a set.
fn hang_on_one(strays: &[Stray], set: &CellList) -> bool
    ensures { OnTrue result ((stray : Stray) × Contains strays.now stray × (c : Cell)
        × (contains stray.heirs c ≡ true) × (contains set.now c ≡ true)) }
{
    for stray in strays {
        if meet(set, &stray.heirs) {
            return true;
        }
    }
    false
}

/// The islands that hang on strays.
fn hanging(alloc: Global, islands: Vec<Class>, strays: &[Stray]) -> Result<Vec<Class>, AllocError>
    ensures { IfOk result (λ left. (R : ModelRule) (G : Generation) →
        All (IsIslandNow R G) islands.items → All (IsIslandNow R G) left.items) }
{
    let mut left = Vec::new(alloc);
    for island in islands {
        if hang_on_one(strays, &island.first) {
            left.push(island)?;
        }
    }
    Ok(left)
}

/// True if one of the later strays hangs on one of the earlier ones.
fn some_hang(strays: &[Stray], laters: &[Stray]) -> bool
    ensures { OnTrue result ((stray : Stray) × Contains strays.now stray × (later : Stray)
        × Contains laters.now later × (c : Cell) × (contains stray.heirs c ≡ true)
        × (contains later.set c ≡ true)) }
{
    for later in laters {
        if hang_on_one(strays, &later.set) {
            return true;
        }
    }
    false
}

/// True if it is shown that a plane's cells neither grow within the bound nor are ash: an island of theirs comes back nowhere
/// within it, and neither does one that hangs on it `bound` generations later. At most `count` islands are followed each time,
/// none that recurs in place within `look` generations, or `LOOK` for the later ones if that is less. The cells that hang on
/// them are looked for next to about `many` cells.
fn some_never_grow<P: Plane>(
    alloc: Global,
    plane: &P,
    rule: &Rule,
    bound: u32,
    count: u32,
    look: u32,
    many: u32,
) -> Result<bool, AllocError>
    requires young { P.steps_made plane.now + 2 * bound ≤ AGE_LIMIT }
    requires many { 1 ≤ many }
    ensures growth { IfOk result (λ no. OnTrue no ((Es : List Generation) (S : Generation) →
        IsGrowth rule.now bound (P.members plane.now) Es S → ⊥)) }
    ensures ash { IfOk result (λ no. OnTrue no ((parts : List Generation) →
        IsAsh rule.now bound (P.members plane.now) parts → ⊥)) }
{
    let islands = islands_of(alloc, plane, rule)?;
    let some = chosen(alloc, plane, rule, islands, bound.min(look), count)?;
    if some.is_empty() {
        return Ok(false);
    }
    let mut later = plane.copy()?;
    let strays = strays_of(alloc, &mut later, rule, some, bound, true, many)?;
    if strays.is_empty() {
        return Ok(false);
    }
    let islands = hanging(alloc, islands_of(alloc, &later, rule)?, strays.as_slice())?;
    let some = chosen(
        alloc,
        &later,
        rule,
        islands,
        bound.min(look).min(LOOK),
        count,
    )?;
    if some.is_empty() {
        return Ok(false);
    }
    let laters = strays_of(alloc, &mut later, rule, some, bound, false, many)?;
    if !some_hang(strays.as_slice(), laters.as_slice()) {
        return Ok(false);
    }
    Ok(true)
}

/// True if one island shows that a plane's cells neither grow within the bound nor are ash. Only one island is followed, and
/// the rest is only stepped.
pub fn one_never_grows<P: Plane>(
    alloc: Global,
    plane: &P,
    rule: &Rule,
    bound: u32,
) -> Result<bool, AllocError>
    requires young { P.steps_made plane.now + 2 * bound ≤ AGE_LIMIT }
    ensures growth { IfOk result (λ no. OnTrue no ((Es : List Generation) (S : Generation) →
        IsGrowth rule.now bound (P.members plane.now) Es S → ⊥)) }
    ensures ash { IfOk result (λ no. OnTrue no ((parts : List Generation) →
        IsAsh rule.now bound (P.members plane.now) parts → ⊥)) }
{
    some_never_grow(alloc, plane, rule, bound, 1, SHORT, FEW)
}

/// True if it is shown that a plane's cells neither grow within the bound nor are ash: by one island, or by `SOME`.
pub fn never_grow<P: Plane>(
    alloc: Global,
    plane: &P,
    rule: &Rule,
    bound: u32,
) -> Result<bool, AllocError>
    requires young { P.steps_made plane.now + 2 * bound ≤ AGE_LIMIT }
    ensures growth { IfOk result (λ no. OnTrue no ((Es : List Generation) (S : Generation) →
        IsGrowth rule.now bound (P.members plane.now) Es S → ⊥)) }
    ensures ash { IfOk result (λ no. OnTrue no ((parts : List Generation) →
        IsAsh rule.now bound (P.members plane.now) parts → ⊥)) }
{
    if one_never_grows(alloc, plane, rule, bound)? {
        return Ok(true);
    }
    some_never_grow(alloc, plane, rule, bound, SOME, bound, MANY)
}
