//! Leaps of a set of cells.
ghost use Rattle.std.specs.Prelude.{◌≡◌, ℕ, ◌+◌, ◌^◌, ◌<◌, ◌≤◌, true, min, All, IfNone, IfOk, IfSome, OnOk, OnErr};
ghost use Rattle.life_model.specs.Evolution.{generation};
ghost use Rattle.life_model.specs.Generation as sets;
ghost use Rattle.life_cells.specs.Limits.{IsPlace, IsWithin};
ghost use Rattle.life_advance.specs.Leaps.Planes.{farthest_age};

use crate::leaps::far::{Side, Spot};
use crate::leaps::rows::Step;
use crate::leaps::site::Site;
use crate::leaps::square::ROOT_LEVEL;
use crate::leaps::store::{NoLeap, Store};
use life_cells::{CellList, Rule, put_in_order};
use life_plane::Logic;
use std::alloc::{AllocError, Global};

/// The squares of a set of cells, what is to be computed of them, and the number of steps that the set has made.
#[derive(Drop)]
pub struct Leaper {
    pub alloc: Global,
    pub store: Store,
    pub step: Step,
    /// The place of the square that has all cells.
    pub root: u32,
    pub age: u32,
}

/// The least level for which squares with quarters of it remember something else if leaps have another exponent.
fn first_changed(old: u32, new: u32) -> u32
    ensures { (n : ℕ) → n < result → min old (n + 4) ≡ min new (n + 4) }
{
    if old == new {
        u32::MAX
    } else {
        old.min(new).saturating_sub(3)
    }
}

impl Leaper {
    ghost use Rattle.life_advance.specs.Leaps.Leapers.{IsLeaper, cells_in};

    /// The squares of the cells of a list at some age. The cells are in the range of that age.
    pub fn at_age(
        alloc: Global,
        rule: &Rule,
        list: &CellList,
        age: u32,
    ) -> Result<Leaper, AllocError>
        requires age { age ≤ farthest_age }
        requires within { All (IsWithin age) (sets.cells list.now) }
        ensures kept { IfOk result IsLeaper }
        ensures cells { IfOk result (λ l. cells_in l ≡ list.now) }
        ensures age { IfOk result (λ l. l.age ≡ age) }
        ensures rule { IfOk result (λ l. l.step.rule ≡ rule.now) }
    {
        let mut store = Store::new(alloc)?;
        let site = Site::root();
        let root = store.build(&site, list.as_slice())?;
        let step = Step {
            rule: *rule,
            logic: Logic::of(rule),
            exponent: 0,
            work: 0,
        };
        Ok(Leaper {
            alloc,
            store,
            step,
            root,
            age,
        })
    }

    /// Prepares the store for leaps of 2^exponent generations, and for `work` more work.
    fn prepare(&mut self, exponent: u32, work: u64)
        requires { IsLeaper self.old }
        ensures kept { IsLeaper self.new }
        ensures cells { cells_in self.new ≡ cells_in self.old }
        ensures exponent { self.new.step.exponent ≡ exponent }
        ensures rule { self.new.step.rule ≡ self.old.step.rule }
        ensures age { self.new.age ≡ self.old.age }
    {
        self.store
            .forget(first_changed(self.step.exponent, exponent));
        self.step.exponent = exponent;
        self.step.work = self.store.work.saturating_add(work);
    }

    /// Makes 2^exponent generations. After an `Err` the cells and the age are unchanged.
    pub fn leap(&mut self, exponent: u32, work: u64) -> Result<(), NoLeap>
        requires kept { IsLeaper self.old }
        requires age { self.old.age + 2 ^ exponent ≤ farthest_age }
        ensures kept { IsLeaper self.new }
        ensures cells { OnOk result (cells_in self.new ≡
            generation self.old.step.rule (cells_in self.old) (2 ^ exponent)) }
        ensures age { OnOk result (self.new.age ≡ self.old.age + 2 ^ exponent) }
        ensures rule { self.new.step.rule ≡ self.old.step.rule }
        ensures unchanged { OnErr result
            ((cells_in self.new ≡ cells_in self.old) × (self.new.age ≡ self.old.age)) }
    {
        self.prepare(exponent, work);
        let wide = self.store.padded(self.root)?;
        let step = self.step;
        let root = self.store.later(&step, ROOT_LEVEL, wide)?;
        self.root = root;
        self.age += 1 << exponent;
        Ok(())
    }

    /// The live cells in order.
    pub fn cells(&self) -> Result<CellList, AllocError>
        requires { IsLeaper self.now }
        ensures { IfOk result (λ list. list ≡ cells_in self.now) }
    {
        let mut cells = Vec::new(self.alloc);
        let site = Site::root();
        self.store.push_cells(&mut cells, &site, self.root)?;
        put_in_order(&mut cells);
        Ok(CellList::from_ordered(cells))
    }

    /// A live cell far to a side. `None` if none is live.
    pub fn far_cell(&self, side: Side) -> Option<(i32, i32)>
        requires { IsLeaper self.now }
        ensures member { IfSome result (λ c. sets.contains (cells_in self.now) c ≡ true) }
        ensures place { IfSome result IsPlace }
        ensures none { IfNone result (cells_in self.now ≡ sets.empty) }
    {
        let spot = Spot {
            site: Site::root(),
            place: self.root,
        };
        self.store.far_cell(side, &spot)
    }
}
