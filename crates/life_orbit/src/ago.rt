//! Sets that recur, some generations ago.
ghost use Rattle.std.specs.Prelude.{◌≡◌, ◌+◌, ◌-◌, ◌/◌, ◌%◌, ◌≤◌, ◌^◌, All, IfNone, IfOk, IfSome};
ghost use Rattle.life_model.specs.Cell.{opposite, plus};
ghost use Rattle.life_model.specs.Evolution.{generation};
ghost use Rattle.life_model.specs.Generation.{Generation};
ghost use Rattle.life_model.specs.Generation as generations;
ghost use Rattle.life_model.specs.Symmetry.{translate_of};
ghost use Rattle.life_cells.specs.Limits.{IsPlace};
ghost use Rattle.life_objects.specs.Drift.{multiple_of};
ghost use Rattle.life_orbit.specs.Course.{IsCourse};
ghost use Rattle.life_orbit.specs.Past.{IsPast};
ghost use Rattle.life_orbit.specs.Reach.{IsReach};

use crate::orbit::Orbit;
use crate::shift::repeated;
use life_cells::{COORDINATE_LIMIT, CellList};
use std::alloc::{AllocError, Global};

/// The phase that a set had `ago` generations ago, wherever it was.
pub fn phase_ago(orbit: &Orbit, ago: u32) -> &CellList
    requires { 1 ≤ ago }
    ensures { result.now ≡ generation orbit.now.rule orbit.now.set
        ((orbit.now.period - 1) - (ago - 1) % orbit.now.period) }
{
    let period = orbit.period();
    orbit.phase(period - 1 - (ago - 1) % period)
}

/// The displacement of a set over the whole periods of which the first began with the phase of `ago` generations ago.
pub fn shift_since(orbit: &Orbit, ago: u32) -> (i128, i128)
    requires { 1 ≤ ago }
    ensures value { result ≡ multiple_of ((ago - 1) / orbit.now.period + 1) orbit.now.displacement }
    ensures reach { IsReach (2 ^ 64) result }
    ensures recurs { IsCourse orbit.now }
{
    let rounds = (ago - 1) / orbit.period();
    repeated(rounds as u128 + 1, orbit.displacement())
}

/// The cell moved back, if a list of cells can hold it then.
fn cell_before(cell: (i32, i32), by: (i128, i128)) -> Option<(i32, i32)>
    requires { IsReach (2 ^ 64) by }
    ensures moved { IfSome result (λ place. place ≡ plus cell (opposite by)) }
    ensures placed { IfSome result IsPlace }
    ensures outside { IfNone result (IsPlace (plus cell (opposite by)) → ⊥) }
{
    let x = cell.0 as i128 - by.0;
    let y = cell.1 as i128 - by.1;
    let limit = COORDINATE_LIMIT as i128;
    if -limit <= x && x < limit && -limit <= y && y < limit {
        return Some((x as i32, y as i32));
    }
    None
}

/// The cells moved back, if a list of cells can hold them all then.
fn cells_before(
    alloc: Global,
    cells: &CellList,
    by: (i128, i128),
) -> Result<Option<CellList>, AllocError>
    requires { IsReach (2 ^ 64) by }
    ensures moved { IfOk result
        (λ found. IfSome found (λ set. set ≡ translate_of cells.now (opposite by))) }
    ensures outside { IfOk result (λ found. IfNone found
        (All IsPlace (generations.cells (translate_of cells.now (opposite by))) → ⊥)) }
{
    let places = cells.as_slice();
    let mut items = Vec::new(alloc);
    for cell in places {
        match cell_before(*cell, by) {
            Some(place) => items.push(place)?,
            None => return Ok(None),
        }
    }
    Ok(Some(CellList::from_ordered(items)))
}

impl Orbit {
    /// The set as it was `ago` generations ago, if it has recurred like this all the time and a list of cells can hold it.
    pub fn set_ago(&self, alloc: Global, ago: u32) -> Result<Option<CellList>, AllocError>
        requires { 1 ≤ ago }
        ensures set { IfOk result (λ found. IfSome found (λ set. (P : Generation) →
            IsPast ago self.now P → set ≡ P)) }
        ensures outside { IfOk result (λ found. IfNone found ((P : Generation) →
            IsPast ago self.now P → All IsPlace (generations.cells P) → ⊥)) }
    {
        cells_before(alloc, phase_ago(self, ago), shift_since(self, ago))
    }

    /// The number of cells that it had `ago` generations ago.
    pub fn size_ago(&self, ago: u32) -> usize
        requires { 1 ≤ ago }
        ensures { (P : Generation) → IsPast ago self.now P → result ≡ generations.size P }
    {
        let _period = self.period();
        phase_ago(self, ago).len()
    }
}
