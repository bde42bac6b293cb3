//! Two sets together.
ghost use Rattle.std.specs.Prelude.{◌≡◌, IfOk};
ghost use Rattle.life_objects.specs.Union.{union};

use life_cells::{CellList, put_in_order};
use std::alloc::{AllocError, Global};

/// The cells of two sets together.
pub fn union(alloc: Global, one: &CellList, other: &CellList) -> Result<CellList, AllocError>
    ensures { IfOk result (λ list. list ≡ union one.now other.now) }
{
    let mut items = one.as_slice().to_vec(alloc)?;
    items.extend_from_slice(other.as_slice())?;
    put_in_order(&mut items);
    Ok(CellList::from_ordered(items))
}
