//! A store with only the squares that one square is made of.
ghost use Rattle.std.specs.Prelude.{◌≡◌, ℕ, Some, None, slice_index_or, IfOk, IfSome};
ghost use Rattle.life_model.specs.Rule.{Rule};
ghost use Rattle.life_advance.specs.Leaps.Squares.{AreRight, Grows, IsAt, IsKept};
ghost use Rattle.life_advance.specs.Leaps.Stores.{view};

use crate::leaps::leaping::Leaper;
use crate::leaps::square::{Quarters, ROOT_LEVEL};
use crate::leaps::store::Store;
use std::alloc::{AllocError, Global};

/// The work of copying a square.
const COPY_WORK: u64 = 2;

/// A store that takes copies of squares of another one.
#[derive(Drop)]
pub struct Copier {
    pub store: Store,
    /// For each square of the other store, the place of its copy, if it has one.
    pub places: Vec<Option<u32>>,
}

impl Copier {
    ghost use Rattle.life_advance.specs.Leaps.Copies.{IsCopier, IsCopyOf};

    /// A store without copies, except of the empty squares, which has done as much work as the other one.
    fn new(alloc: Global, old: &Store) -> Result<Copier, AllocError>
        ensures copier { IfOk result (IsCopier (view old.now)) }
        ensures right { IfOk result (λ c. (rule : Rule) (e : ℕ) → AreRight rule e (view c.store)) }
    {
        let mut store = Store::new(alloc)?;
        store.work = old.work;
        let mut places = Vec::new(alloc);
        places.resize(old.squares.len(), None)?;
        Ok(Copier { store, places })
    }

    /// The place of the copy of a square, if it has one.
    fn found(&self, place: u32) -> Option<u32>
        ensures { IfSome result (λ copy. slice_index_or self.now.places.items place None ≡ Some copy) }
    {
        match self.places.get(place as usize) {
            Some(copy) => *copy,
            None => None,
        }
    }

    /// Copies a square of a level, if it has no copy yet, and all that it is made of.
    fn copy(&mut self, old: &Store, level: u32, place: u32) -> Result<u32, AllocError>
        requires kept { IsKept (view old.now) }
        requires at { IsAt (view old.now) level place }
        requires copier { IsCopier (view old.now) self.old }
        ensures copier { IsCopier (view old.now) self.new }
        ensures grows { (rule : Rule) (e : ℕ) → Grows rule e (view self.old.store) (view self.new.store) }
        ensures copy { IfOk result (IsCopyOf (view old.now) level place (view self.new.store)) }
    {
        if level == 0 {
            let leaf = self.store.leaf(&old.leaves[place as usize])?;
            return Ok(leaf);
        }
        if let Some(copy) = self.found(place) {
            return Ok(copy);
        }
        self.store.work = self.store.work.saturating_add(COPY_WORK);
        let quarters = old.quarters(place);
        let north_west = self.copy(old, level - 1, quarters.north_west)?;
        let north_east = self.copy(old, level - 1, quarters.north_east)?;
        let south_west = self.copy(old, level - 1, quarters.south_west)?;
        let south_east = self.copy(old, level - 1, quarters.south_east)?;
        let made = Quarters {
            north_west,
            north_east,
            south_west,
            south_east,
        };
        let copy = self.store.square(level - 1, &made)?;
        self.places[place as usize] = Some(copy);
        Ok(copy)
    }
}

impl Leaper {
    ghost use Rattle.life_advance.specs.Leaps.Leapers.{IsLeaper, cells_in};

    /// Keeps only the squares that the one with all cells is made of, and forgets what they become. After an `Err` nothing
    /// has changed.
    pub fn collect(&mut self) -> Result<(), AllocError>
        requires { IsLeaper self.old }
        ensures kept { IsLeaper self.new }
        ensures cells { cells_in self.new ≡ cells_in self.old }
        ensures age { self.new.age ≡ self.old.age }
        ensures rule { self.new.step.rule ≡ self.old.step.rule }
    {
        let mut copier = Copier::new(self.alloc, &self.store)?;
        let root = copier.copy(&self.store, ROOT_LEVEL, self.root)?;
        self.store = copier.store;
        self.root = root;
        Ok(())
    }
}
