//! Cells that are seen to be no engine.
ghost use Rattle.std.specs.Prelude.{◌≡◌, ℕ, ◌+◌, ◌<◌, ◌≤◌, All, IfOk};
ghost use Rattle.std.specs.Bool.{OnTrue};
ghost use Rattle.life_model.specs.Cell.{Cell};
ghost use Rattle.life_model.specs.Generation as generations;
ghost use Rattle.life_model.specs.Recurrence.{RecursBy};
ghost use Rattle.life_cells.specs.Limits.{IsWithin};
ghost use Rattle.life_ash.specs.Parts.{ash_age_limit};
ghost use Rattle.life_growth.specs.Engine.{IsEngineWithin};
ghost use Rattle.life_orbit.specs.Kept.{orbit_age_limit};
ghost use Rattle.life_growing.specs.Populations.{ArePopulations, FallsBack};

use crate::returning::never_come_back;
use life_cells::{CellList, Rule};
use life_orbit::Orbit;
use life_plane::Plane;
use life_things::WAY_LIMIT;
use std::alloc::{AllocError, Global};

/// A recurrence within `SOON` generations is looked for first, since many sets that don't grow recur within them.
const SOON: u32 = 64;

/// The populations of some cells of this age and of the next `length` generations.
fn populations<P: Plane>(
    alloc: Global,
    rule: &Rule,
    cells: &CellList,
    age: u32,
    length: u32,
) -> Result<Vec<u64>, AllocError>
    requires age { age + length ≤ ash_age_limit }
    requires within { All (IsWithin age) (generations.cells cells.now) }
    ensures { IfOk result (λ counts. ArePopulations rule.now cells.now (length + 1) counts.items) }
{
    let mut plane = P::at_age(alloc, cells, age)?;
    let mut counts = Vec::new(alloc);
    counts.push(plane.population())?;
    for _ in 0..length {
        plane.step(rule)?;
        counts.push(plane.population())?;
    }
    Ok(counts)
}

/// True if one of the numbers is no less than the one `places` places later.
pub fn falls_back(counts: &[u64], places: usize) -> bool
    ensures { OnTrue result (FallsBack counts.now places) }
{
    for n in places..counts.len() {
        if counts[n] <= counts[n - places] {
            return true;
        }
    }
    false
}

/// True if, for each number of places from 1 to the bound, one of the counts is no less than the one that many places
/// later.
fn keep_falling_back(counts: &[u64], bound: usize) -> bool
    ensures { OnTrue result ((places : ℕ) → 1 ≤ places → places ≤ bound → FallsBack counts.now places) }
{
    for before in 0..bound {
        if !falls_back(counts, before + 1) {
            return false;
        }
    }
    true
}

/// True if the cells are seen to recur within `SOON` generations.
fn come_again_soon<P: Plane>(
    alloc: Global,
    rule: &Rule,
    cells: &CellList,
) -> Result<bool, AllocError>
    requires { All (IsWithin orbit_age_limit) (generations.cells cells.now) }
    ensures { IfOk result (λ do_so. OnTrue do_so
        ((p : ℕ) × (d : Cell) × RecursBy rule.now cells.now p d)) }
{
    match Orbit::of::<P>(alloc, rule, cells, SOON)? {
        Some(_) => Ok(true),
        None => Ok(false),
    }
}

/// True if cells of this age are seen to be no engine within the bound: they recur within `SOON` generations; or, for
/// every period, some generation has no fewer cells than the one a period later; or the cells don't come back a
/// period later with the rest falling apart.
pub fn are_no_engine<P: Plane>(
    alloc: Global,
    rule: &Rule,
    cells: &CellList,
    age: u32,
    bound: u32,
) -> Result<bool, AllocError>
    requires bound { 1 ≤ bound × bound ≤ WAY_LIMIT }
    requires age { (age + bound) + bound ≤ ash_age_limit }
    requires within { All (IsWithin age) (generations.cells cells.now) }
    ensures { IfOk result (λ no. OnTrue no (IsEngineWithin rule.now bound cells.now → ⊥)) }
{
    if come_again_soon::<P>(alloc, rule, cells)? {
        return Ok(true);
    }
    let counts = populations::<P>(alloc, rule, cells, age, bound + bound)?;
    if keep_falling_back(counts.as_slice(), bound as usize) {
        return Ok(true);
    }
    never_come_back::<P>(alloc, rule, cells, counts.as_slice(), age, bound)
}
