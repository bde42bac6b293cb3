//! The plane that leaps.
ghost use Rattle.std.specs.Prelude.{◌≡◌, ℕ, ◌+◌, ◌^◌, ◌≤◌, true, All, IfNone, IfOk, IfSome, OnOk, OnErr};
ghost use Rattle.life_model.specs.Evolution.{generation};
ghost use Rattle.life_model.specs.Generation as sets;
ghost use Rattle.life_cells.specs.Limits.{IsPlace, IsWithin};
ghost use Rattle.life_advance.specs.Leaps.Planes.{farthest_age, members, rule_of, steps_made};

use crate::leaps::far::Side;
use crate::leaps::leaping::Leaper;
use crate::leaps::store::NoLeap;
use life_cells::{CellList, Rule};
use std::alloc::{AllocError, Global};
use std::marker::Model;

/// A finite set of live cells, kept as squares that remember what they become, the number of steps that it has made, and its
/// rule. It keeps the squares that it has made until it collects.
#[derive(Drop)]
pub struct LeapPlane {
    leaper: Leaper,
}

impl Model for LeapPlane {
    ghost use Rattle.life_advance.specs.Leaps.Planes.{Seen, coded_seen};
    ghost use Rattle.life_advance.specs.Leaps.Leapers.{IsLeaper, cells_in};

    ghost Value = { Seen };

    ghost coded = { coded_seen };

    ghost view = { λ p. ((cells_in p.leaper, p.leaper.age), p.leaper.step.rule) };

    ghost invariant = { λ p. IsLeaper p.leaper };
}

impl LeapPlane {
    /// The plane of these cells at some age, by a rule. The cells are in the range of that age.
    pub fn at_age(alloc: Global, rule: &Rule, list: &CellList, age: u32) -> Result<Self, AllocError>
        requires age { age ≤ farthest_age }
        requires within { All (IsWithin age) (sets.cells list.now) }
        ensures cells { IfOk result (λ p. members p ≡ list.now) }
        ensures age { IfOk result (λ p. steps_made p ≡ age) }
        ensures rule { IfOk result (λ p. rule_of p ≡ rule.now) }
    {
        let leaper = Leaper::at_age(alloc, rule, list, age)?;
        Ok(LeapPlane { leaper })
    }

    /// Replaces all cells by those of a list, at some age. The cells are in the range of that age. What was computed is kept, and
    /// so is the rule. After an `Err` the cells and the age are unchanged.
    pub fn put(&mut self, list: &CellList, age: u32) -> Result<(), AllocError>
        requires age { age ≤ farthest_age }
        requires within { All (IsWithin age) (sets.cells list.now) }
        ensures cells { OnOk result (members self.new ≡ list.now) }
        ensures age { OnOk result (steps_made self.new ≡ age) }
        ensures rule { rule_of self.new ≡ rule_of self.old }
        ensures unchanged { OnErr result
            ((members self.new ≡ members self.old) × (steps_made self.new ≡ steps_made self.old)) }
    {
        self.leaper.put(list, age)?;
        Ok(())
    }

    /// Makes 2^exponent generations, with about `work` work, in units of a band of eight rows of 64 cells. After an `Err` the
    /// cells and the age are unchanged.
    pub fn leap(&mut self, exponent: u32, work: u64) -> Result<(), NoLeap>
        requires { steps_made self.old + 2 ^ exponent ≤ farthest_age }
        ensures cells { OnOk result (members self.new ≡
            generation (rule_of self.old) (members self.old) (2 ^ exponent)) }
        ensures age { OnOk result (steps_made self.new ≡ steps_made self.old + 2 ^ exponent) }
        ensures rule { rule_of self.new ≡ rule_of self.old }
        ensures unchanged { OnErr result
            ((members self.new ≡ members self.old) × (steps_made self.new ≡ steps_made self.old)) }
    {
        self.leaper.leap(exponent, work)?;
        Ok(())
    }

    /// True where squares take half of the memory that they may take. Leaps are refused once they take all.
    pub fn is_half_full(&self) -> bool {
        self.leaper.store.is_half_full()
    }

    /// Frees the memory of all squares but those that show the cells now, and forgets what was computed. After an `Err` nothing
    /// has changed.
    pub fn collect(&mut self) -> Result<(), AllocError>
        ensures { self.new ≡ self.old }
    {
        self.leaper.collect()?;
        Ok(())
    }

    /// The live cells in order.
    pub fn cells(&self) -> Result<CellList, AllocError>
        ensures { IfOk result (λ list. list ≡ members self.now) }
    {
        self.leaper.cells()
    }

    /// A live cell far to a side: no leaf, of 32 by 32 cells, that has live ones is further. `None` if none is live.
    pub fn far_cell(&self, side: Side) -> Option<(i32, i32)>
        ensures member { IfSome result (λ c. sets.contains (members self.now) c ≡ true) }
        ensures place { IfSome result IsPlace }
        ensures none { IfNone result (members self.now ≡ sets.empty) }
    {
        self.leaper.far_cell(side)
    }

    /// The number of steps that it has made. No cell is further than that from the range of age 0.
    pub fn age(&self) -> u32
        ensures age { result ≡ steps_made self.now }
        ensures within { All (IsWithin (steps_made self.now)) (sets.cells (members self.now)) }
    {
        self.leaper.age
    }

    /// The work that it has done since it was made.
    pub fn work(&self) -> u64 {
        self.leaper.store.work
    }
}
