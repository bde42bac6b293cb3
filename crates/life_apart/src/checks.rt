//! Deciding whether sets that recur make up a set and stay apart for ever.
ghost use Rattle.std.specs.Prelude.{◌≡◌, ◌≤◌, ◌↔◌, ◌++◌, All, AllPairs, IfOk, IsTrue, flat_map};
ghost use Rattle.life_model.specs.Generation as generations;
ghost use Rattle.life_model.specs.Rule.{Rule as ModelRule};
ghost use Rattle.life_objects.specs.Apart.{AreApartForEver};
ghost use Rattle.life_objects.specs.Union.{union_of};
ghost use Rattle.life_apart.specs.Sets.{IsCourseBy, sets_of};

use crate::span::spans_in_order;
use crate::sweep::are_apart_by_bands;
use life_cells::{CellList, put_in_order};
use life_orbit::Orbit;
use std::alloc::{AllocError, Global};

/// Up to `FEW` sets are all compared with each other, which takes fewer steps than sorting them.
const FEW: usize = 16;

/// The cells of each of the sets, one set after another.
fn all_cells(alloc: Global, orbits: &[Orbit]) -> Result<Vec<(i32, i32)>, AllocError>
    ensures cells { IfOk result
        (λ all. all.items ≡ flat_map generations.cells (sets_of orbits.now)) }
{
    let mut all = Vec::new(alloc);
    for orbit in orbits {
        all.extend_from_slice(orbit.set().as_slice())?;
    }
    Ok(all)
}

/// True if the cells of the sets are these cells.
pub fn are_together(alloc: Global, orbits: &[Orbit], cells: &CellList) -> Result<bool, AllocError>
    ensures { IfOk result (λ are. IsTrue are ↔ (union_of (sets_of orbits.now) ≡ cells.now)) }
{
    let mut all = all_cells(alloc, orbits)?;
    put_in_order(&mut all);
    Ok(all.as_slice() == cells.as_slice())
}

/// True if a set stays apart for ever from each of the others.
fn is_apart_from_all(orbit: &Orbit, others: &[Orbit]) -> bool
    requires { All (IsCourseBy orbit.now.rule) others.now }
    ensures { IsTrue result ↔ All (AreApartForEver orbit.now.rule orbit.now.set)
        (sets_of others.now) }
{
    for other in others {
        if !orbit.is_apart_for_ever_from(other) {
            return false;
        }
    }
    true
}

/// True if any two of the sets stay apart for ever. All are compared with each other.
fn each_is_apart(orbits: &[Orbit]) -> bool
    requires { (R : ModelRule) × All (IsCourseBy R) orbits.now }
    ensures { (R : ModelRule) → All (IsCourseBy R) orbits.now →
        IsTrue result ↔ AllPairs (AreApartForEver R) (sets_of orbits.now) }
{
    for n in 0..orbits.len() {
        if !is_apart_from_all(&orbits[n], &orbits[..n]) {
            return false;
        }
    }
    true
}

/// True if any two of the sets stay apart for ever. If there are more than a few, those that stay where they are are
/// compared only with those in the same band of rows whose columns are near. If there is no memory for that, all are
/// compared with each other.
pub fn are_apart(alloc: Global, orbits: &[Orbit]) -> bool
    requires { (R : ModelRule) × All (IsCourseBy R) orbits.now }
    ensures { (R : ModelRule) → All (IsCourseBy R) orbits.now →
        IsTrue result ↔ AllPairs (AreApartForEver R) (sets_of orbits.now) }
{
    if orbits.len() > FEW {
        if let Ok(spans) = spans_in_order(alloc, orbits) {
            return are_apart_by_bands(orbits, spans.as_slice());
        }
    }
    each_is_apart(orbits)
}
