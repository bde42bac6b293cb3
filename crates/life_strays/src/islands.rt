//! The islands of a plane: its cells, taken apart into sets of cells that are near one another.
ghost use Rattle.std.specs.Prelude.{All, IfOk};
ghost use Rattle.life_strays.specs.Strays.{IsIslandNow};

use life_cells::Rule;
use life_classes::{Class, first_classes};
use life_plane::Plane;
use std::alloc::{AllocError, Global};

/// The islands of a plane. None is empty.
pub fn islands_of<P: Plane>(alloc: Global, plane: &P, rule: &Rule) -> Result<Vec<Class>, AllocError>
    ensures { IfOk result (λ islands. All (IsIslandNow rule.now (P.members plane.now)) islands.items) }
{
    let cells = plane.cells()?;
    let classes = first_classes(alloc, cells.as_slice())?;
    let mut islands = Vec::new(alloc);
    for class in classes {
        if !class.first.is_empty() {
            islands.push(class)?;
        }
    }
    Ok(islands)
}
