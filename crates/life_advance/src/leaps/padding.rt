//! Squares twice as wide around others.
ghost use Rattle.std.specs.Prelude.{◌≡◌, ℕ, suc, true, IfOk};
ghost use Rattle.life_model.specs.Cell.{Cell};
ghost use Rattle.life_model.specs.Generation.{Generation, contains};
ghost use Rattle.life_model.specs.Rule.{Rule};
ghost use Rattle.life_advance.specs.Leaps.Squares.{Grows, IsAt, IsKept, Shows};
ghost use Rattle.life_advance.specs.Leaps.Stores.{view};
ghost use Rattle.life_advance.specs.Leaps.Cells.{IsInside};
ghost use Rattle.life_advance.specs.Leaps.Sites.{root_corner, root_level, wide_corner};

use crate::leaps::square::{Quarters, ROOT_LEVEL, empty_place};
use crate::leaps::store::Store;
use std::alloc::AllocError;

impl Store {
    /// The square twice as wide that has the one with all cells of a plane in its middle, and no other cell.
    pub fn padded(&mut self, root: u32) -> Result<u32, AllocError>
        requires kept { IsKept (view self.old) }
        requires at { IsAt (view self.old) root_level root }
        ensures grows { (rule : Rule) (e : ℕ) → Grows rule e (view self.old) (view self.new) }
        ensures at { IfOk result (λ i. IsAt (view self.new) (suc root_level) i) }
        ensures shows { IfOk result (λ i. (G : Generation) →
            Shows (view self.old) root_level root G root_corner →
            ((q : Cell) → contains G q ≡ true → IsInside root_level root_corner q) →
            Shows (view self.new) (suc root_level) i G wide_corner) }
    {
        let whole = self.quarters(root);
        let empty = empty_place(ROOT_LEVEL - 1);
        let one = Quarters {
            north_west: empty,
            north_east: empty,
            south_west: empty,
            south_east: whole.north_west,
        };
        let north_west = self.square(ROOT_LEVEL - 1, &one)?;
        let two = Quarters {
            north_west: empty,
            north_east: empty,
            south_west: whole.north_east,
            south_east: empty,
        };
        let north_east = self.square(ROOT_LEVEL - 1, &two)?;
        let three = Quarters {
            north_west: empty,
            north_east: whole.south_west,
            south_west: empty,
            south_east: empty,
        };
        let south_west = self.square(ROOT_LEVEL - 1, &three)?;
        let four = Quarters {
            north_west: whole.south_east,
            north_east: empty,
            south_west: empty,
            south_east: empty,
        };
        let south_east = self.square(ROOT_LEVEL - 1, &four)?;
        let made = Quarters {
            north_west,
            north_east,
            south_west,
            south_east,
        };
        let wide = self.square(ROOT_LEVEL, &made)?;
        Ok(wide)
    }
}
