//! Deciding whether sets that recur made up a set some generations ago.
ghost use Rattle.std.specs.Prelude.{◌≡◌, ◌≤◌, ◌↔◌, All, AllPairs, IfNone, IfOk, IfSome, IsTrue, flat_map};
ghost use Rattle.life_model.specs.Generation as generations;
ghost use Rattle.life_cells.specs.Limits.{IsPlace};
ghost use Rattle.life_objects.specs.Apart.{AreDisjoint};
ghost use Rattle.life_objects.specs.Union.{union_of};
ghost use Rattle.life_orbit.specs.Course.{IsCourse};
ghost use Rattle.life_apart.specs.Onsets.Pasts.{pasts, total};

use life_cells::put_in_order;
use life_orbit::Orbit;
use life_plane::{AGE_LIMIT, Plane};
use std::alloc::{AllocError, Global};

/// True if the sets had `population` cells in all, `ago` generations ago.
fn were_as_many(parts: &[Orbit], ago: u32, population: u64) -> bool
    requires ago { 1 ≤ ago }
    requires courses { All IsCourse parts.now }
    ensures { IsTrue result ↔ (total (pasts ago parts.now) ≡ population) }
{
    let mut left = population;
    for part in parts {
        match left.checked_sub(part.size_ago(ago) as u64) {
            Some(rest) => left = rest,
            None => return false,
        }
    }
    left == 0
}

/// The cells of each of the sets as it was `ago` generations ago, if a list of cells can hold all of them.
fn cells_ago(
    alloc: Global,
    parts: &[Orbit],
    ago: u32,
) -> Result<Option<Vec<(i32, i32)>>, AllocError>
    requires ago { 1 ≤ ago }
    requires courses { All IsCourse parts.now }
    ensures cells { IfOk result (λ found. IfSome found
        (λ all. all.items ≡ flat_map generations.cells (pasts ago parts.now))) }
    ensures outside { IfOk result (λ found. IfNone found
        (All IsPlace (generations.cells (union_of (pasts ago parts.now))) → ⊥)) }
{
    let mut all = Vec::new(alloc);
    for part in parts {
        match part.set_ago(alloc, ago)? {
            Some(set) => all.extend_from_slice(set.as_slice())?,
            None => return Ok(None),
        }
    }
    Ok(Some(all))
}

/// True if a plane's cells are those that the sets had `ago` generations ago. The sets had no cell in common then.
pub fn were_together<P: Plane>(
    alloc: Global,
    plane: &P,
    parts: &[Orbit],
    ago: u32,
) -> Result<bool, AllocError>
    requires ago { 1 ≤ ago }
    requires courses { All IsCourse parts.now }
    requires disjoint { AllPairs AreDisjoint (pasts ago parts.now) }
    requires young { P.steps_made plane.now ≤ AGE_LIMIT }
    ensures { IfOk result
        (λ were. IsTrue were ↔ (union_of (pasts ago parts.now) ≡ P.members plane.now)) }
{
    if !were_as_many(parts, ago, plane.population()) {
        return Ok(false);
    }
    // (at its age no cell of the plane is too far out)
    let _age = plane.age();
    let Some(mut all) = cells_ago(alloc, parts, ago)? else {
        return Ok(false);
    };
    put_in_order(&mut all);
    let cells = plane.cells()?;
    Ok(all.as_slice() == cells.as_slice())
}
