//! The objects that an engine emits in a period, counted by codes.
ghost use Rattle.std.specs.Prelude.{◌++◌, IfOk, List, OnOk};
ghost use Rattle.life_orbit.specs.Course.{Course};
ghost use Rattle.life_census.specs.Counted.{AreCounted};
ghost use Rattle.life_census.specs.Emitted.{parts_of_each};

use crate::field::is_placed;
use crate::known_sets::KnownSets;
use life_answer::Parts;
use life_growing::Settled;
use std::alloc::{AllocError, Global};

/// Counts the objects that a set falls apart into, in addition to those in `parts`.
fn count_left(
    alloc: Global,
    known: &mut KnownSets,
    left: &Settled,
    near: bool,
    parts: &mut Parts,
) -> Result<(), AllocError>
    ensures { OnOk result ((before : List Course) → AreCounted near before parts.old →
        AreCounted near (before ++ left.now.parts) parts.new) }
{
    for orbit in left.parts() {
        // No plane has cells elsewhere.
        if !is_placed(orbit) {
            return Err(AllocError);
        }
        known.count(alloc, orbit, near, parts)?;
    }
    Ok(())
}

/// The objects that an engine emits in a period, counted by codes. `lefts` are the outcomes of the cells that leave
/// in each step.
pub fn emitted(
    alloc: Global,
    known: &mut KnownSets,
    lefts: &[Settled],
    near: bool,
) -> Result<Parts, AllocError>
    ensures { IfOk result (λ parts. AreCounted near (parts_of_each lefts.now) parts) }
{
    let mut parts = Parts::none(alloc);
    for left in lefts {
        count_left(alloc, known, left, near, &mut parts)?;
    }
    Ok(parts)
}
