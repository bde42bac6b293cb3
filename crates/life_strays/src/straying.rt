//! Islands that come back nowhere.
ghost use Rattle.std.specs.Prelude.{◌≡◌, ℕ, ◌+◌, ◌≤◌, All, IfOk, OnOk};
ghost use Rattle.life_model.specs.Evolution.{generation};
ghost use Rattle.life_model.specs.Generation.{Generation};
ghost use Rattle.life_model.specs.Rule.{Rule as ModelRule};
ghost use Rattle.life_strays.specs.Strays.{IsIslandNow, IsStray};

use crate::heirs::heirs_of;
use crate::stray::Stray;
use life_cells::{CellList, Rule};
use life_classes::Class;
use life_plane::{AGE_LIMIT, Plane};
use std::alloc::{AllocError, Global};

/// The islands as strays. Their own cells hang on them if `with_heirs`, and otherwise no cells do.
fn first_strays(
    alloc: Global,
    islands: Vec<Class>,
    with_heirs: bool,
) -> Result<Vec<Stray>, AllocError>
    ensures { IfOk result (λ strays. (R : ModelRule) (b : ℕ) (G : Generation) →
        All (IsIslandNow R G) islands.items → All (IsStray R b 0 G) strays.items) }
{
    let mut strays = Vec::new(alloc);
    for island in islands {
        if with_heirs {
            strays.push(Stray {
                set: island.first,
                heirs: island.last,
            })?;
        } else {
            let heirs = CellList::with_capacity(alloc, 0)?;
            strays.push(Stray {
                set: island.first,
                heirs,
            })?;
        }
    }
    Ok(strays)
}

/// The strays that have not come back in the next generation either: generation `number`, that of the plane. The cells that
/// hang on them are looked for next to about `many` cells.
fn still_strays<P: Plane>(
    alloc: Global,
    plane: &P,
    strays: Vec<Stray>,
    number: u32,
    bound: u32,
    many: u32,
) -> Result<Vec<Stray>, AllocError>
    requires number { number ≤ AGE_LIMIT }
    requires many { 1 ≤ many }
    ensures { IfOk result (λ left. (R : ModelRule) (n : ℕ) (G : Generation) → number ≡ n + 1 →
        P.members plane.now ≡ generation R G (n + 1) →
        All (IsStray R bound n G) strays.items → All (IsStray R bound (n + 1) G) left.items) }
{
    let is_late = bound / 2 < number;
    let mut left = Vec::new(alloc);
    for stray in strays {
        if !is_late || !plane.may_have_moved(&stray.set, number) {
            let heirs = heirs_of(alloc, plane, &stray.heirs, many)?;
            left.push(Stray {
                set: stray.set,
                heirs,
            })?;
        }
    }
    Ok(left)
}

/// Those of the islands of a plane that come back nowhere within the bound, with cells that hang on them at the end if
/// `with_heirs`: these are looked for next to about `many` cells in each generation. Afterwards the plane is `bound`
/// generations later.
pub fn strays_of<P: Plane>(
    alloc: Global,
    plane: &mut P,
    rule: &Rule,
    islands: Vec<Class>,
    bound: u32,
    with_heirs: bool,
    many: u32,
) -> Result<Vec<Stray>, AllocError>
    requires many { 1 ≤ many }
    requires young { P.steps_made plane.old + bound ≤ AGE_LIMIT }
    requires islands { All (IsIslandNow rule.now (P.members plane.old)) islands.items }
    ensures later { OnOk result
        (P.members plane.new ≡ generation rule.now (P.members plane.old) bound) }
    ensures age { OnOk result (P.steps_made plane.new ≡ P.steps_made plane.old + bound) }
    ensures strays { IfOk result
        (λ strays. All (IsStray rule.now bound bound (P.members plane.old)) strays.items) }
{
    let mut strays = first_strays(alloc, islands, with_heirs)?;
    for n in 0..bound {
        plane.step(rule)?;
        strays = still_strays(alloc, plane, strays, n + 1, bound, many)?;
    }
    Ok(strays)
}
