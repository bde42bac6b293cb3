//! The codes that sets that recur count as.
ghost use Rattle.std.specs.Prelude.{◌≡◌, All, IfOk, [], ◌∷◌, map};
ghost use Rattle.life_ash.specs.Parts.{IsPlaced};
ghost use Rattle.life_orbit.specs.Course.{IsCourse};
ghost use Rattle.life_census.specs.Counted.{CountsAs};
ghost use Rattle.life_census.specs.Courses.{course_code};

use crate::code::code_of;
use life_answer::Code;
use life_board::Board;
use life_islands::part_orbits;
use life_orbit::Orbit;
use std::alloc::{AllocError, Global};

/// A list with only the code of an orbit's set.
fn one_code(alloc: Global, orbit: &Orbit) -> Result<Vec<Code>, AllocError>
    requires within { IsPlaced orbit.now }
    ensures { IfOk result (λ codes. codes.items ≡ course_code orbit.now ∷ []) }
{
    let code = code_of(alloc, orbit)?;
    let mut codes = Vec::new(alloc);
    codes.push(code)?;
    Ok(codes)
}

/// The codes of the sets of orbits, in their order.
fn codes_in_order(alloc: Global, orbits: &[Orbit]) -> Result<Vec<Code>, AllocError>
    requires within { All IsPlaced orbits.now }
    ensures { IfOk result (λ codes. codes.items ≡ map course_code orbits.now) }
{
    let mut codes = Vec::new(alloc);
    for n in 0..orbits.len() {
        codes.push(code_of(alloc, &orbits[n])?)?;
    }
    Ok(codes)
}

/// The codes that an orbit's set counts as, whose cells are in the field at age 400,000. With `near`, that is the set's own
/// code, and otherwise the codes of its independent parts. But if one of these takes more than 100,000 generations to recur,
/// it is the set's own.
pub fn codes_of(alloc: Global, orbit: &Orbit, near: bool) -> Result<Vec<Code>, AllocError>
    requires within { IsPlaced orbit.now }
    requires course { IsCourse orbit.now }
    ensures { IfOk result (λ codes. CountsAs near orbit.now.rule orbit.now.set codes.items) }
{
    if near {
        return one_code(alloc, orbit);
    }
    match part_orbits::<Board>(alloc, orbit)? {
        Some(parts) => codes_in_order(alloc, parts.as_slice()),
        None => one_code(alloc, orbit),
    }
}
