//! The bounding box of cells.
ghost use Rattle.std.specs.Prelude.{◌≡◌, All, IfOk};
ghost use Rattle.life_model.specs.Box.{height, width};
ghost use Rattle.life_model.specs.Generation.{cells};
ghost use Rattle.life_cells.specs.Limits.{IsWithin};

use life_cells::{CellList, Shape};
use std::alloc::{AllocError, Global};

/// The width and the height of the bounding box of cells with coordinates from 0 to 1,048,575: both 0 where there is no cell.
pub fn size(alloc: Global, list: &CellList) -> Result<(u32, u32), AllocError>
    requires { All (IsWithin 0) (cells list.now) }
    ensures { IfOk result (λ size. size ≡ (width list.now, height list.now)) }
{
    let (shape, _) = Shape::of(alloc, list)?;
    Ok((shape.width(), shape.height()))
}
