//! Choosing the islands to follow. Correctness does not depend on the choice.
ghost use Rattle.std.specs.Prelude.{◌+◌, ◌<◌, ◌≤◌, All, IfOk, OnOk, length};
ghost use Rattle.life_model.specs.Generation.{Generation};
ghost use Rattle.life_model.specs.Rule.{Rule as ModelRule};
ghost use Rattle.life_strays.specs.Strays.{IsIslandNow};

use life_cells::{CellList, Rule};
use life_classes::Class;
use life_plane::{AGE_LIMIT, Plane};
use std::alloc::{AllocError, Global};

/// The number of generations for which islands are checked for recurring in place: to show that there is no ash, and for
/// islands that hang on others.
pub const LOOK: u32 = 64;

/// An island whose cells are all live again within `SOON` generations is not followed.
const SOON: u32 = 2;

/// The number of islands of each of two kinds that are followed to show that there is no ash.
const FEW: u32 = 2;

/// True if all the cells are live in a plane.
fn stand<P: Plane>(plane: &P, cells: &CellList) -> bool {
    for cell in cells.as_slice() {
        if plane.row(*cell) % 2 == 0 {
            return false;
        }
    }
    true
}

/// The islands whose cells are not all live in a plane. The others are appended to `standing`.
fn absent<P: Plane>(
    alloc: Global,
    plane: &P,
    islands: Vec<Class>,
    standing: &mut Vec<Class>,
) -> Result<Vec<Class>, AllocError>
    ensures left { IfOk result (λ left. (R : ModelRule) (G : Generation) →
        All (IsIslandNow R G) islands.items → All (IsIslandNow R G) left.items) }
    ensures standing { OnOk result ((R : ModelRule) (G : Generation) → All (IsIslandNow R G) islands.items →
        All (IsIslandNow R G) standing.old.items → All (IsIslandNow R G) standing.new.items) }
{
    let mut left = Vec::new(alloc);
    for island in islands {
        if stand(plane, &island.first) {
            standing.push(island)?;
        } else {
            left.push(island)?;
        }
    }
    Ok(left)
}

/// The islands that have all of their cells live in none of the next `bound` generations. The others are appended to
/// `standing`.
fn unsettled<P: Plane>(
    alloc: Global,
    plane: &P,
    rule: &Rule,
    islands: Vec<Class>,
    bound: u32,
    standing: &mut Vec<Class>,
) -> Result<Vec<Class>, AllocError>
    requires young { P.steps_made plane.now + bound ≤ AGE_LIMIT }
    ensures left { IfOk result (λ left. (R : ModelRule) (G : Generation) →
        All (IsIslandNow R G) islands.items → All (IsIslandNow R G) left.items) }
    ensures standing { OnOk result ((R : ModelRule) (G : Generation) → All (IsIslandNow R G) islands.items →
        All (IsIslandNow R G) standing.old.items → All (IsIslandNow R G) standing.new.items) }
{
    let mut later = plane.copy()?;
    let mut left = islands;
    for _ in 0..bound {
        if left.is_empty() {
            return Ok(left);
        }
        later.step(rule)?;
        left = absent(alloc, &later, left, standing)?;
    }
    Ok(left)
}

/// The place of the island with the most cells.
fn largest(islands: &[Class]) -> usize
    requires { 0 < length islands.now }
    ensures { result < length islands.now }
{
    let mut best = 0;
    for n in 0..islands.len() {
        if islands[best].first.len() < islands[n].first.len() {
            best = n;
        }
    }
    best
}

/// Moves the largest islands, at most `count` of them, to the end of `some`.
fn take_largest(
    islands: &mut Vec<Class>,
    count: u32,
    some: &mut Vec<Class>,
) -> Result<(), AllocError>
    ensures left { OnOk result ((R : ModelRule) (G : Generation) →
        All (IsIslandNow R G) islands.old.items → All (IsIslandNow R G) islands.new.items) }
    ensures some { OnOk result ((R : ModelRule) (G : Generation) → All (IsIslandNow R G) islands.old.items →
        All (IsIslandNow R G) some.old.items → All (IsIslandNow R G) some.new.items) }
{
    for _ in 0..count {
        if islands.is_empty() {
            return Ok(());
        }
        let place = largest(islands.as_slice());
        some.push(islands.remove(place))?;
    }
    Ok(())
}

/// At most `count` of the islands: the largest of those that have all of their cells live in none of the next `bound`
/// generations.
pub fn chosen<P: Plane>(
    alloc: Global,
    plane: &P,
    rule: &Rule,
    islands: Vec<Class>,
    bound: u32,
    count: u32,
) -> Result<Vec<Class>, AllocError>
    requires young { P.steps_made plane.now + bound ≤ AGE_LIMIT }
    ensures { IfOk result (λ some. (R : ModelRule) (G : Generation) →
        All (IsIslandNow R G) islands.items → All (IsIslandNow R G) some.items) }
{
    let mut standing = Vec::new(alloc);
    let mut rest = unsettled(alloc, plane, rule, islands, bound, &mut standing)?;
    let mut some = Vec::new(alloc);
    take_largest(&mut rest, count, &mut some)?;
    Ok(some)
}

/// Moves the first of the islands to the end of `some`.
pub fn take_first(islands: &mut Vec<Class>, some: &mut Vec<Class>) -> Result<(), AllocError>
    requires { 0 < length islands.now.items }
    ensures left { OnOk result ((R : ModelRule) (G : Generation) →
        All (IsIslandNow R G) islands.old.items → All (IsIslandNow R G) islands.new.items) }
    ensures some { OnOk result ((R : ModelRule) (G : Generation) → All (IsIslandNow R G) islands.old.items →
        All (IsIslandNow R G) some.old.items → All (IsIslandNow R G) some.new.items) }
{
    some.push(islands.remove(0))?;
    Ok(())
}

/// A few of the islands: the largest of those that have all of their cells live in none of the next `LOOK` generations, and the
/// largest of the others. An island whose cells are all live again within `SOON` generations is left out. At most `bound`
/// generations are looked at.
pub fn chosen_for_ash<P: Plane>(
    alloc: Global,
    plane: &P,
    rule: &Rule,
    islands: Vec<Class>,
    bound: u32,
) -> Result<Vec<Class>, AllocError>
    requires young { P.steps_made plane.now + bound ≤ AGE_LIMIT }
    ensures { IfOk result (λ some. (R : ModelRule) (G : Generation) →
        All (IsIslandNow R G) islands.items → All (IsIslandNow R G) some.items) }
{
    let mut still = Vec::new(alloc);
    let restless = unsettled(alloc, plane, rule, islands, bound.min(SOON), &mut still)?;
    let mut others = Vec::new(alloc);
    let mut rest = unsettled(alloc, plane, rule, restless, bound.min(LOOK), &mut others)?;
    let mut some = Vec::new(alloc);
    take_largest(&mut rest, FEW, &mut some)?;
    others.append(&mut rest)?;
    take_largest(&mut others, FEW, &mut some)?;
    Ok(some)
}
