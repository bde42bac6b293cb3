//! The middles of leaves some generations later, and of squares as they are.
ghost use Rattle.std.specs.Prelude.{◌≡◌, ℕ, suc, ◌+◌, ◌<◌, ◌≤◌, IfOk};
ghost use Rattle.life_model.specs.Rule.{Rule};
ghost use Rattle.life_advance.specs.Leaps.Squares.{AreAt, Grows, IsKept, IsMiddle};
ghost use Rattle.life_advance.specs.Leaps.Stores.{view};
ghost use Rattle.life_advance.specs.Leaps.Rows.{IsReady};

use crate::leaps::rows::Step;
use crate::leaps::square::Quarters;
use crate::leaps::store::Store;
use life_slots::{FourLeaves, middle_later};
use std::alloc::AllocError;

impl Store {
    /// The middle of four leaves `generations` generations later.
    pub fn middle_of_leaves(
        &mut self,
        step: &Step,
        quarters: &Quarters,
        generations: u32,
    ) -> Result<u32, AllocError>
        requires ready { IsReady step.now (view self.old) }
        requires at { AreAt (view self.old) 0 quarters.now }
        requires few { generations ≤ 16 }
        ensures grows { Grows step.now.rule step.now.exponent (view self.old) (view self.new) }
        ensures middle { IfOk result (λ i. IsMiddle step.now.rule generations
            (view self.old) 0 quarters.now (view self.new) i) }
    {
        let four = FourLeaves {
            north_west: &self.leaves[quarters.north_west as usize],
            north_east: &self.leaves[quarters.north_east as usize],
            south_west: &self.leaves[quarters.south_west as usize],
            south_east: &self.leaves[quarters.south_east as usize],
        };
        let leaf = middle_later(&step.logic, &four, generations);
        let place = self.leaf(&leaf)?;
        Ok(place)
    }

    /// The middle of a square that has quarters of a level. It is half as wide.
    pub fn centre(
        &mut self,
        step: &Step,
        level: u32,
        quarters: &Quarters,
    ) -> Result<u32, AllocError>
        requires ready { IsReady step.now (view self.old) }
        requires at { AreAt (view self.old) level quarters.now }
        ensures grows { Grows step.now.rule step.now.exponent (view self.old) (view self.new) }
        ensures middle { IfOk result (λ i. IsMiddle step.now.rule 0
            (view self.old) level quarters.now (view self.new) i) }
    {
        if level == 0 {
            return self.middle_of_leaves(step, quarters, 0);
        }
        let place = self.centre_of_squares(level - 1, quarters)?;
        Ok(place)
    }

    /// The middle of a square whose quarters are made of squares of a level.
    fn centre_of_squares(&mut self, level: u32, quarters: &Quarters) -> Result<u32, AllocError>
        requires kept { IsKept (view self.old) }
        requires at { AreAt (view self.old) (suc level) quarters.now }
        ensures grows { (rule : Rule) (e : ℕ) → Grows rule e (view self.old) (view self.new) }
        ensures middle { IfOk result (λ i. (rule : Rule) → IsMiddle rule 0
            (view self.old) (suc level) quarters.now (view self.new) i) }
    {
        let middle = Quarters {
            north_west: self.quarters(quarters.north_west).south_east,
            north_east: self.quarters(quarters.north_east).south_west,
            south_west: self.quarters(quarters.south_west).north_east,
            south_east: self.quarters(quarters.south_east).north_west,
        };
        let place = self.square(level, &middle)?;
        Ok(place)
    }
}
