//! The independent parts of a set that recurs.
ghost use Rattle.std.specs.Prelude.{◌≡◌, IfOk};
ghost use Rattle.life_parts.specs.Parts.Parts.{AreIndependentParts};

use crate::gathered;
use crate::split::rounds::joined_for_good;
use life_cells::CellList;
use life_orbit::Orbit;
use std::alloc::{AllocError, Global};

/// The independent parts of the set of an orbit, each once, in no promised order. A set without a cell has none.
pub fn independent_parts(alloc: Global, orbit: &Orbit) -> Result<Vec<CellList>, AllocError>
    ensures { IfOk result
        (λ parts. AreIndependentParts orbit.now.rule orbit.now.set parts.items) }
{
    let forest = joined_for_good(alloc, orbit)?;
    gathered(alloc, orbit.set(), forest.as_slice())
}
