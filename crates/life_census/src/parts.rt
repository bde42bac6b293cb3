//! The parts that sets that recur count as, counted by codes.
ghost use Rattle.std.specs.Prelude.{◌≡◌, All, IfOk};
ghost use Rattle.life_ash.specs.Parts.{IsPlaced};
ghost use Rattle.life_orbit.specs.Course.{IsCourse};
ghost use Rattle.life_census.specs.Counted.{AreCounted};

use crate::known_sets::KnownSets;
use life_answer::Parts;
use life_orbit::Orbit;
use std::alloc::{AllocError, Global};

/// The parts that the sets of orbits count as, counted by codes: with `near` each set itself, and otherwise its independent
/// parts. The cells of the sets are in the field at age 400,000.
pub fn parts_of(alloc: Global, orbits: &[Orbit], near: bool) -> Result<Parts, AllocError>
    requires within { All IsPlaced orbits.now }
    requires courses { All IsCourse orbits.now }
    ensures { IfOk result (λ parts. AreCounted near orbits.now parts) }
{
    let mut parts = Parts::none(alloc);
    let mut known = KnownSets::new(alloc);
    for n in 0..orbits.len() {
        known.count(alloc, &orbits[n], near, &mut parts)?;
    }
    Ok(parts)
}
