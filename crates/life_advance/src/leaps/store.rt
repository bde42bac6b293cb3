//! The store of squares.

ghost use Rattle.std.specs.Prelude.{◌≡◌, ℕ, suc, ◌+◌, ◌<◌, ◌≤◌, ◌++◌, [], ◌∷◌, None, Some, IfOk, IfSome, OnOk, IsTrue, ◌↔◌, is_ok, if◌then◌else◌, length, slice_index_or};
ghost use Rattle.std.proofs.Math.ListN.{set};
ghost use Rattle.life_model.specs.Rule.{Rule};
ghost use Rattle.life_advance.specs.Leaps.Squares.{AreAt, AreRight, Forgets, Grows, IsAt, IsKept};
ghost use Rattle.life_advance.specs.Leaps.Stores.{HasSame, view};

use crate::leaps::chains::Chains;
use crate::leaps::square::{Quarters, Square, TOP_LEVEL, empty_place, mix_quarters};
use life_slots::Leaf;
use std::alloc::{AllocError, Global};
use thiserror::Error;

/// The memory that squares may take, in pieces of some sixty bytes.
const PIECES: u64 = 4_000_000;

/// The number of pieces that a leaf takes.
const LEAF_PIECES: u64 = 4;

/// The reason why a leap was not made.
#[derive(Clone, Copy, Debug, PartialEq, Eq, Drop, Error)]
pub enum NoLeap {
    /// It would have been too much work.
    #[error("too much work")]
    Work,
    /// Memory was refused, or too many squares were needed.
    #[error("out of memory")]
    Memory,
}

impl From<AllocError> for NoLeap {
    fn from(_: AllocError) -> NoLeap {
        NoLeap::Memory
    }
}

/// The next place of a list of this length, if a square can refer to it.
fn place_of(len: usize) -> Result<u32, AllocError>
    ensures { IfOk result (λ i. i ≡ len) }
{
    u32::try_from(len).map_err(|_| AllocError)
}

/// Leaves, and squares of all other levels in one list: the empty squares first, one of each level, and each other one after its
/// quarters.
#[derive(Drop)]
pub struct Store {
    pub leaves: Vec<Leaf>,
    leaf_chains: Chains,
    pub squares: Vec<Square>,
    square_chains: Chains,
    /// The number of pieces of memory that are taken.
    taken: u64,
    /// The work done, in bands of eight rows of a leaf's area.
    pub work: u64,
}

/// A number that depends on all bits of a leaf.
fn mix_leaf(leaf: &Leaf) -> u64 {
    let mut mixed: u64 = 1;
    for row in &leaf.rows {
        mixed = (mixed.rotate_left(23) ^ u64::from(*row)).wrapping_mul(0x9e37_79b9_7f4a_7c15);
    }
    mixed
}

impl Store {
    /// The store with the empty squares.
    pub fn new(alloc: Global) -> Result<Store, AllocError>
        ensures kept { IfOk result (λ s. IsKept (view s)) }
        ensures right { IfOk result (λ s. (rule : Rule) (e : ℕ) → AreRight rule e (view s)) }
    {
        let mut store = Store {
            leaves: Vec::new(alloc),
            leaf_chains: Chains::new(alloc)?,
            squares: Vec::new(alloc),
            square_chains: Chains::new(alloc)?,
            taken: 0,
            work: 0,
        };
        store.leaves.push(Leaf::empty())?;
        for level in 0..TOP_LEVEL {
            let empty = empty_place(level);
            let quarters = Quarters {
                north_west: empty,
                north_east: empty,
                south_west: empty,
                south_east: empty,
            };
            store.squares.push(Square::new(level, &quarters))?;
        }
        store.chain_squares()?;
        Ok(store)
    }

    /// True where half of the memory that squares may take is taken.
    pub fn is_half_full(&self) -> bool {
        self.taken >= PIECES / 2
    }

    /// Takes memory, if any is left.
    fn take(&mut self, pieces: u64) -> Result<(), AllocError>
        requires { pieces ≤ 4 }
        ensures { HasSame self.old self.new }
    {
        if self.taken >= PIECES {
            return Err(AllocError);
        }
        self.taken += pieces;
        Ok(())
    }

    /// Chains all leaves anew, in at least twice as many chains as there are leaves.
    fn chain_leaves(&mut self) -> Result<(), AllocError>
        ensures { HasSame self.old self.new }
    {
        self.leaf_chains.clear(self.leaves.len().saturating_mul(2))?;
        for (place, leaf) in self.leaves.iter().enumerate() {
            self.leaf_chains.put(place_of(place)?, mix_leaf(leaf))?;
        }
        Ok(())
    }

    /// Chains all squares anew.
    fn chain_squares(&mut self) -> Result<(), AllocError>
        ensures { HasSame self.old self.new }
    {
        self.square_chains
            .clear(self.squares.len().saturating_mul(2))?;
        for (place, square) in self.squares.iter().enumerate() {
            let mixed = mix_quarters(square.level, &square.quarters);
            self.square_chains.put(place_of(place)?, mixed)?;
        }
        Ok(())
    }

    /// Puts a leaf at the end of the list.
    fn append_leaf(&mut self, leaf: &Leaf, place: u32, mixed: u64) -> Result<(), AllocError>
        ensures leaves { self.new.leaves.items ≡
            (if is_ok result then self.old.leaves.items ++ leaf.now ∷ [] else self.old.leaves.items) }
        ensures squares { self.new.squares.items ≡ self.old.squares.items }
    {
        if self.leaf_chains.is_full() {
            self.chain_leaves()?;
        }
        self.leaf_chains.put(place, mixed)?;
        self.leaves.push(*leaf)?;
        Ok(())
    }

    /// Puts a square at the end of the list.
    fn append_square(&mut self, square: Square, place: u32, mixed: u64) -> Result<(), AllocError>
        ensures squares { self.new.squares.items ≡
            (if is_ok result then self.old.squares.items ++ square ∷ [] else self.old.squares.items) }
        ensures leaves { self.new.leaves.items ≡ self.old.leaves.items }
    {
        if self.square_chains.is_full() {
            self.chain_squares()?;
        }
        self.square_chains.put(place, mixed)?;
        self.squares.push(square)?;
        Ok(())
    }

    /// The place of a leaf, if it is found.
    fn find_leaf(&self, leaf: &Leaf, mixed: u64) -> Option<u32>
        ensures at { IfSome result (λ i. i < (view self.now).leaves) }
        ensures is { IfSome result (λ i. (view self.now).leaf i ≡ leaf.now) }
    {
        let mut place = self.leaf_chains.first(mixed);
        'chain: loop {
            if (place as usize) < self.leaves.len() && self.leaves[place as usize] == *leaf {
                return Some(place);
            }
            if place == 0 {
                return None;
            }
            place = self.leaf_chains.after(place);
        }
    }

    /// The place of a leaf, which is put at the end of the list if it is not found.
    pub fn leaf(&mut self, leaf: &Leaf) -> Result<u32, AllocError>
        requires { IsKept (view self.old) }
        ensures grows { (rule : Rule) (e : ℕ) → Grows rule e (view self.old) (view self.new) }
        ensures at { IfOk result (λ i. i < (view self.new).leaves) }
        ensures is { IfOk result (λ i. (view self.new).leaf i ≡ leaf.now) }
    {
        let mixed = mix_leaf(leaf);
        if let Some(place) = self.find_leaf(leaf, mixed) {
            return Ok(place);
        }
        self.take(LEAF_PIECES)?;
        let place = place_of(self.leaves.len())?;
        self.append_leaf(leaf, place, mixed)?;
        Ok(place)
    }

    /// The place of the square that has quarters of a level, if it is found.
    fn find_square(&self, level: u32, quarters: &Quarters, mixed: u64) -> Option<u32>
        ensures at { IfSome result (λ i. IsAt (view self.now) (suc level) i) }
        ensures is { IfSome result (λ i. ((view self.now).square i).quarters ≡ quarters.now) }
    {
        let mut place = self.square_chains.first(mixed);
        'chain: loop {
            if (place as usize) < self.squares.len()
                && self.squares[place as usize].is_made_of(level, quarters)
            {
                return Some(place);
            }
            if place == 0 {
                return None;
            }
            place = self.square_chains.after(place);
        }
    }

    /// The place of the square that has these quarters of a level. It is put at the end of the list if it is not found.
    pub fn square(&mut self, level: u32, quarters: &Quarters) -> Result<u32, AllocError>
        requires kept { IsKept (view self.old) }
        requires at { AreAt (view self.old) level quarters.now }
        ensures grows { (rule : Rule) (e : ℕ) → Grows rule e (view self.old) (view self.new) }
        ensures at { IfOk result (λ i. IsAt (view self.new) (suc level) i) }
        ensures is { IfOk result (λ i. ((view self.new).square i).quarters ≡ quarters.now) }
    {
        let mixed = mix_quarters(level, quarters);
        if let Some(place) = self.find_square(level, quarters, mixed) {
            return Ok(place);
        }
        self.take(1)?;
        let place = place_of(self.squares.len())?;
        self.append_square(Square::new(level, quarters), place, mixed)?;
        Ok(place)
    }

    /// The square at a place.
    pub fn square_at(&self, place: u32) -> Square
        requires { place < (view self.now).squares }
        ensures { result ≡ (view self.now).square place }
    {
        self.squares[place as usize]
    }

    /// The quarters of a square.
    pub fn quarters(&self, place: u32) -> Quarters
        requires { place < (view self.now).squares }
        ensures { result ≡ ((view self.now).square place).quarters }
    {
        self.squares[place as usize].quarters
    }

    /// Remembers what the middle of a square becomes.
    pub fn remember(&mut self, place: u32, later: u32)
        requires { place < (view self.old).squares }
        ensures leaves { self.new.leaves.items ≡ self.old.leaves.items }
        ensures squares { self.new.squares.items ≡ set self.old.squares.items place
            (record ((view self.old).square place) { later = Some later }) }
    {
        self.squares[place as usize].later = Some(later);
    }

    /// Forgets what is remembered by squares whose quarters have this level or a greater one.
    pub fn forget(&mut self, level: u32)
        ensures { Forgets level (view self.old) (view self.new) }
    {
        for place in 0..self.squares.len() {
            if level <= self.squares[place].level {
                self.squares[place].later = None;
            }
        }
    }
}
