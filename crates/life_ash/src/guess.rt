//! Guessing parts, and then checking them.
ghost use Rattle.std.specs.Prelude.{◌≡◌, ◌≤◌, All, IfOk, IfSome};
ghost use Rattle.life_model.specs.Generation as generations;
ghost use Rattle.life_cells.specs.Limits.{IsWithin};
ghost use Rattle.life_objects.specs.Ash.{IsAsh};
ghost use Rattle.life_orbit.specs.Course.{IsCourse};
ghost use Rattle.life_apart.specs.Sets.{IsCourseBy, sets_of};
ghost use Rattle.life_ash.specs.Parts.{IsFit, IsPlaced, ash_age_limit};

use crate::again::comes_again;
use crate::ash_orbits::is_ash;
use crate::known::Known;
use life_classes::{Class, classes_of};
use life_orbit::Orbit;
use life_plane::Plane;
use std::alloc::{AllocError, Global};

/// The limits of a guess.
#[derive(Clone, Copy)]
struct Effort {
    /// The number of generations for which the cells are followed.
    followed: u32,
    /// The number of generations within which each part must recur.
    recurs: u32,
}

/// The efforts of the guesses, each made if those before it found nothing. Most objects recur within four generations, and
/// within as many do the islands of most objects that have several come near each other.
const EFFORTS: [Effort; 4] = [
    Effort {
        followed: 0,
        recurs: 4,
    },
    Effort {
        followed: 4,
        recurs: 4,
    },
    Effort {
        followed: 16,
        recurs: 16,
    },
    Effort {
        followed: 64,
        recurs: 64,
    },
];

/// A set with more cells than this is checked for recurrence before any of its generations is kept.
const LARGE: usize = 4096;

/// The orbits of the first cells of the classes, if each recurs within `tried` generations or is known already.
fn orbits_of<P: Plane>(
    alloc: Global,
    known: &mut Known,
    classes: &[Class],
    tried: u32,
) -> Result<Option<Vec<Orbit>>, AllocError>
    requires some { 1 ≤ tried }
    requires most { tried ≤ known.now.bound }
    requires within { All (λ c. All (IsWithin ash_age_limit) (generations.cells c.first))
        classes.now }
    ensures same { known.new ≡ known.old }
    ensures fit { IfOk result
        (λ found. IfSome found
        (λ orbits. All (IsFit known.old.rule known.old.bound) orbits.items)) }
{
    let rule = known.rule();
    let most = known.bound().min(tried);
    let mut orbits = Vec::new(alloc);
    for class in classes {
        if class.first.len() > LARGE && !comes_again::<P>(alloc, &class.first, &rule, most)? {
            return Ok(None);
        }
        match known.orbit_of::<P>(alloc, &class.first, tried)? {
            Some(orbit) => orbits.push(orbit)?,
            None => return Ok(None),
        }
    }
    Ok(Some(orbits))
}

/// Parts of which a plane's cells are ash within the bound of `known`, if one effort finds them.
fn parts_by_effort<P: Plane>(
    alloc: Global,
    plane: &P,
    known: &mut Known,
    effort: Effort,
) -> Result<Option<Vec<Orbit>>, AllocError>
    requires young { P.steps_made plane.now ≤ ash_age_limit }
    ensures same { known.new ≡ known.old }
    ensures ash { IfOk result (λ found. IfSome found (λ parts.
        IsAsh known.old.rule known.old.bound (P.members plane.now) (sets_of parts.items))) }
    ensures rule { IfOk result
        (λ found. IfSome found (λ parts. All (IsCourseBy known.old.rule) parts.items)) }
    ensures placed { IfOk result (λ found. IfSome found (λ parts. All IsPlaced parts.items)) }
    ensures courses { IfOk result (λ found. IfSome found (λ parts. All IsCourse parts.items)) }
{
    let rule = known.rule();
    let bound = known.bound();
    let followed = bound.min(effort.followed);
    let tried = bound.min(effort.recurs.max(1));
    // (at its age no cell is too far out)
    let _age = plane.age();
    let all = classes_of(alloc, plane, &rule, followed)?;
    let Some(parts) = orbits_of::<P>(alloc, known, all.as_slice(), tried)? else {
        return Ok(None);
    };
    if is_ash(alloc, plane, parts.as_slice(), &rule, bound)? {
        return Ok(Some(parts));
    }
    Ok(None)
}

/// Parts of which a plane's cells are ash within the bound of `known`, if they are found quickly: cells that belong together
/// come near each other within a while, and each part recurs within a while or is known already. `None` means nothing. At most
/// `most` efforts are made, each greater than those before it.
pub fn guessed_parts<P: Plane>(
    alloc: Global,
    plane: &P,
    known: &mut Known,
    most: usize,
) -> Result<Option<Vec<Orbit>>, AllocError>
    requires young { P.steps_made plane.now ≤ ash_age_limit }
    ensures same { known.new ≡ known.old }
    ensures ash { IfOk result (λ found. IfSome found (λ parts.
        IsAsh known.old.rule known.old.bound (P.members plane.now) (sets_of parts.items))) }
    ensures rule { IfOk result
        (λ found. IfSome found (λ parts. All (IsCourseBy known.old.rule) parts.items)) }
    ensures placed { IfOk result (λ found. IfSome found (λ parts. All IsPlaced parts.items)) }
    ensures courses { IfOk result (λ found. IfSome found (λ parts. All IsCourse parts.items)) }
{
    for effort in &EFFORTS[..most.min(EFFORTS.len())] {
        if let Some(parts) = parts_by_effort(alloc, plane, known, *effort)? {
            return Ok(Some(parts));
        }
    }
    Ok(None)
}
