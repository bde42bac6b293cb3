//! The classes of a pattern that live on.
ghost use Rattle.std.specs.Prelude.{◌≡◌, IfOk, filter};
ghost use Rattle.life_classes.specs.Tracking.{last_sets};
ghost use Rattle.life_ash.specs.Living.{has_cells};

use life_cells::CellList;
use life_classes::Class;
use std::alloc::{AllocError, Global};

/// True if there is a cell.
fn has_cells(cells: &CellList) -> bool
    ensures { result ≡ has_cells cells.now }
{
    cells.len() != 0
}

/// The last cells of the classes that live on.
pub fn living(alloc: Global, classes: Vec<Class>) -> Result<Vec<CellList>, AllocError>
    ensures { IfOk result (λ sets. sets.items ≡ filter has_cells (last_sets classes.items)) }
{
    let mut sets = Vec::new(alloc);
    for class in classes {
        if has_cells(&class.last) {
            sets.push(class.last)?;
        }
    }
    Ok(sets)
}
