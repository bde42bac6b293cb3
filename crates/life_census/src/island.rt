//! Patterns whose cells are still one island after a while. They don't grow: a period later an engine has left something that
//! is never near it again.
ghost use Rattle.std.specs.Prelude.{◌≡◌, ◌+◌, ◌*◌, ◌≤◌, IfOk};
ghost use Rattle.std.specs.Bool.{OnTrue};
ghost use Rattle.life_model.specs.Evolution.{generation};
ghost use Rattle.life_model.specs.Rule.{Rule as ModelRule};
ghost use Rattle.life_objects.specs.Whole.{StaysWhole};
ghost use Rattle.life_census.specs.Grown.{NeverGrows};

use life_cells::Rule;
use life_classes::first_classes;
use life_plane::{AGE_LIMIT, Plane};
use life_strays::never_grow;
use std::alloc::{AllocError, Global};

/// True if a plane's cells are one island, or none.
fn is_one_island<P: Plane>(alloc: Global, plane: &P) -> Result<bool, AllocError>
    ensures { IfOk result (λ is_one. OnTrue is_one ((R : ModelRule) →
        StaysWhole R 0 (P.members plane.now) (P.members plane.now))) }
{
    let cells = plane.cells()?;
    let classes = first_classes(alloc, cells.as_slice())?;
    if classes.len() > 1 {
        return Ok(false);
    }
    Ok(true)
}

/// The plane some generations later.
fn later_by<P: Plane>(plane: &P, rule: &Rule, count: u32) -> Result<P, AllocError>
    requires { P.steps_made plane.now + count ≤ AGE_LIMIT }
    ensures { IfOk result (λ later. P.members later ≡ generation rule.now (P.members plane.now) count) }
{
    let mut later = plane.copy()?;
    'steps: for _ in 0..count {
        later.step(rule)?;
    }
    Ok(later)
}

/// True if a plane's cells are one island, and so is what they have become after the horizon. Cells that grow within it never
/// are.
fn stays_one_island<P: Plane>(
    alloc: Global,
    plane: &P,
    rule: &Rule,
    horizon: u32,
) -> Result<bool, AllocError>
    requires { P.steps_made plane.now + horizon ≤ AGE_LIMIT }
    ensures { IfOk result (λ stays. OnTrue stays (NeverGrows rule.now horizon (P.members plane.now))) }
{
    if !is_one_island(alloc, plane)? {
        return Ok(false);
    }
    let later = later_by(plane, rule, horizon)?;
    let is_one = is_one_island(alloc, &later)?;
    if !is_one {
        return Ok(false);
    }
    Ok(true)
}

/// True if it is shown that a plane's cells don't grow within the horizon: they stay one island, or islands of theirs that come
/// back nowhere show it.
pub fn never_grows<P: Plane>(
    alloc: Global,
    plane: &P,
    rule: &Rule,
    horizon: u32,
) -> Result<bool, AllocError>
    requires { P.steps_made plane.now + 2 * horizon ≤ AGE_LIMIT }
    ensures { IfOk result (λ no. OnTrue no (NeverGrows rule.now horizon (P.members plane.now))) }
{
    if stays_one_island(alloc, plane, rule, horizon)? {
        return Ok(true);
    }
    never_grow(alloc, plane, rule, horizon)
}
