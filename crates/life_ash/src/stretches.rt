//! The numbers of cells that generations have together.
ghost use Rattle.std.specs.Prelude.{◌≡◌, ◌+◌, ◌<◌, ◌≤◌, ◌^◌, ℕ, OnOk};
ghost use Rattle.life_model.specs.Evolution.{generation};
ghost use Rattle.life_model.specs.Generation.{Generation, size};
ghost use Rattle.life_model.specs.Rule.{Rule as ModelRule};
ghost use Rattle.life_ash.specs.Counted.{IsCounted};

use std::alloc::{AllocError, Global};

/// The number of cells of the generations from that of the bound on, up to some generation, which is not counted yet. A
/// stretch is as many generations as the bound.
#[derive(Drop)]
pub struct Totals {
    /// The totals before each stretch so far.
    pub before: Vec<u128>,
    /// The total so far.
    pub total: u128,
    /// The number of generations of the stretch that are left.
    pub left: u32,
}

impl Totals {
    /// The totals before any generation is counted.
    pub fn new(alloc: Global) -> Totals
        ensures total { result.total ≡ 0 }
        ensures counted { (R : ModelRule) (b : ℕ) (H : Generation) → IsCounted R b H 0 result }
    {
        Totals {
            before: Vec::new(alloc),
            total: 0,
            left: 0,
        }
    }

    /// Counts the cells of one more generation. After an `Err` the totals are those of no generations.
    pub fn add(&mut self, bound: u32, population: u64) -> Result<(), AllocError>
        requires some { 1 ≤ bound }
        requires small { self.old.total + population < 2 ^ 128 }
        ensures total { OnOk result (self.new.total ≡ self.old.total + population) }
        ensures counted { OnOk result ((R : ModelRule) (H : Generation) (n : ℕ) → size (generation R H n) ≡ population →
            IsCounted R bound H n self.old → IsCounted R bound H (n + 1) self.new) }
    {
        if self.left == 0 {
            self.before.push(self.total)?;
            self.left = bound;
        }
        self.total += u128::from(population);
        self.left -= 1;
        Ok(())
    }
}
