//! Growth beyond what settles.
ghost use Rattle.std.specs.Prelude.{ℕ, ℤ, pos, ◌≡◌, ◌≤◌, ◌≤ℤ◌, All, IfSome, IsTrue};
ghost use Rattle.life_model.specs.Evolution.{generation};
ghost use Rattle.life_model.specs.Generation as sets;
ghost use Rattle.life_model.specs.Recurrence.{SettlesAt};
ghost use Rattle.life_cells.specs.Limits.{IsWithin};
ghost use Rattle.life_advance.specs.Leaps.Planes.{members};
ghost use Rattle.life_advance.specs.Width.Spans.{SpansColumns, SpansRows};

use crate::leaps::{LeapPlane, Side};
use crate::width::spread::spread_of;
use life_cells::{CellList, Rule};
use std::alloc::Global;

/// The exponent of the number of generations that are leapt over at once. A pattern that sends something out at a
/// quarter of a cell per generation, to one side only, is then wider than it may be within a bound of 1,000,000.
const FAR: u32 = 23;

/// The first generation at which the distance between the cells is checked.
const FIRST_ASKED: u32 = 2_048;

/// The last generation at which it is checked.
const LAST_ASKED: u32 = 1_048_576;

/// The number of cells with which a leap is as expensive as a band of eight rows of 64 cells in each generation before
/// it.
const CELLS_OF_WORK: u64 = 16;

/// A generation long after this one, if some work and the memory that there is are enough. The work is about a fraction
/// of that of the generations before.
fn far_generation(alloc: Global, rule: &Rule, cells: &CellList, age: u32) -> Option<LeapPlane>
    requires age { age ≤ 1048576 }
    requires within { All (IsWithin age) (sets.cells cells.now) }
    ensures { IfSome result
        (λ plane. (t : ℕ) × (members plane ≡ generation rule.now cells.now t)) }
{
    let Ok(mut plane) = LeapPlane::at_age(alloc, rule, cells, age) else {
        return None;
    };
    let work = u64::from(age).saturating_mul(cells.len() as u64 / CELLS_OF_WORK);
    match plane.leap(FAR, work) {
        Ok(()) => Some(plane),
        Err(_) => None,
    }
}

/// True only if two cells are in columns more than `most` apart.
fn is_wider(plane: &LeapPlane, most: i64) -> bool
    ensures { IsTrue result →
        (n : ℕ) → pos n ≤ℤ most → SpansColumns (members plane.now) n → ⊥ }
{
    let Some(west) = plane.far_cell(Side::West) else {
        return false;
    };
    let Some(east) = plane.far_cell(Side::East) else {
        return false;
    };
    i64::from(east.0) - i64::from(west.0) > most
}

/// True only if two cells are in rows more than `most` apart.
fn is_higher(plane: &LeapPlane, most: i64) -> bool
    ensures { IsTrue result →
        (n : ℕ) → pos n ≤ℤ most → SpansRows (members plane.now) n → ⊥ }
{
    let Some(north) = plane.far_cell(Side::North) else {
        return false;
    };
    let Some(south) = plane.far_cell(Side::South) else {
        return false;
    };
    i64::from(south.1) - i64::from(north.1) > most
}

/// True only if the cells of a later generation, of this age, show that the cells grow further apart than they may if a
/// generation recurs within a bound. A far generation is made from them by leaps. This is not checked before age 2,048.
/// False promises nothing: the leaps may be too much work or run out of memory, or the cells of the far generation may
/// be near enough.
pub fn outgrows(
    alloc: Global,
    rule: &Rule,
    cells: &CellList,
    later: &CellList,
    age: u32,
    bound: u32,
) -> bool
    requires later { later.now ≡ generation rule.now cells.now age }
    requires within { All (IsWithin age) (sets.cells later.now) }
    ensures { IsTrue result → (g : ℕ) → SettlesAt rule.now cells.now bound g → ⊥ }
{
    if age < FIRST_ASKED || age > LAST_ASKED {
        return false;
    }
    let Some(plane) = far_generation(alloc, rule, later, age) else {
        return false;
    };
    let spread = spread_of(cells.as_slice());
    let growth = 2 * i64::from(bound);
    if is_wider(&plane, i64::from(spread.columns) + growth) {
        return true;
    }
    is_higher(&plane, i64::from(spread.rows) + growth)
}
