//! The near pieces of a set.
ghost use Rattle.std.specs.Prelude.{◌≡◌, IfOk};
ghost use Rattle.life_model.specs.Rule.{Rule};
ghost use Rattle.life_classes.specs.Tracking.{first_sets};
ghost use Rattle.life_growth.specs.Unsplit.{AreClasses};
ghost use Rattle.life_tracks.specs.Frames.Frames.{with_cells};

use life_cells::CellList;
use life_classes::{Class, first_classes};
use std::alloc::{AllocError, Global};

/// The first cells of each class that has any.
fn some_of(alloc: Global, classes: Vec<Class>) -> Result<Vec<CellList>, AllocError>
    ensures { IfOk result (λ sets. sets.items ≡ with_cells (first_sets classes.items)) }
{
    let mut sets = Vec::with_capacity(alloc, classes.len())?;
    for class in classes {
        if class.first.len() != 0 {
            sets.push(class.first)?;
        }
    }
    Ok(sets)
}

/// The near pieces of a set: cells at most two from each other in both directions are in the same piece.
pub fn near_pieces(alloc: Global, list: &CellList) -> Result<Vec<CellList>, AllocError>
    ensures { IfOk result (λ pieces. (R : Rule) → AreClasses R 0 list.now pieces.items) }
{
    let classes = first_classes(alloc, list.as_slice())?;
    some_of(alloc, classes)
}
