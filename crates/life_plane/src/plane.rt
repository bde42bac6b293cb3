//! A set of cells that evolves.
ghost use Rattle.std.specs.Prelude.{◌≡◌, ℕ, ◌+◌, ◌+ℤ◌, ◌<◌, ◌≤◌, pos, cond, false, All, OnOk, OnErr, IfNone, IfOk, IfSome};
ghost use Rattle.std.specs.Int.{bit_at};
ghost use Rattle.life_model.specs.Evolution.{next};
ghost use Rattle.life_model.specs.Generation.{Generation};
ghost use Rattle.life_model.specs.Generation as generation;
ghost use Rattle.life_model.specs.Generation.{contains};
ghost use Rattle.life_cells.specs.Limits.{IsPlace, IsWithin, age_limit};
ghost use Rattle.life_plane.specs.Span.{set_span};
ghost use Rattle.life_plane.specs.Offsets.{AreNotTranslates, HasNoneWithin, IsOffset};

use crate::offset::offset_between;
use crate::span::span_of;
use life_cells::{CellList, Rule};
use std::alloc::{AllocError, Global};

/// The greatest age that a plane may reach.
pub const AGE_LIMIT: u32 = 4_194_304;

/// A finite set of live cells on the unbounded plane, and its age: the number of steps it has made.
///
/// At age `a` every coordinate is from `-a` to `1,048,575 + a`.
pub trait Plane: Sized + Drop {
    /// Its live cells, in whatever form they are kept.
    ghost members: { Self → Generation };

    /// The number of steps it has made.
    ghost steps_made: { Self → ℕ };

    /// The plane of these cells, whose coordinates are from 0 to 1,048,575, at age 0.
    fn from_cells(alloc: Global, list: &CellList) -> Result<Self, AllocError>
        requires { All (IsWithin 0) (generation.cells list.now) }
        ensures cells { IfOk result (λ plane. members plane ≡ list.now) }
        ensures age { IfOk result (λ plane. steps_made plane ≡ 0) }
        ensures within { IfOk result
            (λ plane. All (IsWithin (steps_made plane)) (generation.cells (members plane))) };

    /// The plane of these cells at some age. Their coordinates are in the range of that age.
    fn at_age(alloc: Global, list: &CellList, age: u32) -> Result<Self, AllocError>
        requires age { age ≤ AGE_LIMIT }
        requires within { All (IsWithin age) (generation.cells list.now) }
        ensures cells { IfOk result (λ plane. members plane ≡ list.now) }
        ensures age { IfOk result (λ plane. steps_made plane ≡ age) }
        ensures within { IfOk result
            (λ plane. All (IsWithin (steps_made plane)) (generation.cells (members plane))) };

    /// Makes the next generation. After an `Err` the cells and the age are unchanged.
    fn step(&mut self, rule: &Rule) -> Result<(), AllocError>
        requires { steps_made self.old < AGE_LIMIT }
        ensures cells { OnOk result (members self.new ≡ next rule.now (members self.old)) }
        ensures age { OnOk result (steps_made self.new ≡ steps_made self.old + 1) }
        ensures unchanged { OnErr result
            ((members self.new ≡ members self.old) × (steps_made self.new ≡ steps_made self.old)) }
        ensures within { OnOk result
            (All (IsWithin (steps_made self.new)) (generation.cells (members self.new))) };

    /// The number of live cells.
    fn population(&self) -> u64
        ensures { result ≡ generation.size (members self.now) };

    /// The number of steps it has made. No cell is further than that from the range of age 0.
    fn age(&self) -> u32
        ensures age { result ≡ steps_made self.now }
        ensures within { All (IsWithin (steps_made self.now))
            (generation.cells (members self.now)) };

    /// The cell and the 63 to the east of it. Each is live if its bit is set: the first has bit 0.
    fn row(&self, cell: (i32, i32)) -> u64
        requires { IsPlace cell }
        ensures { (j : ℕ) → j < 64 →
            bit_at result j ≡ cond (contains (members self.now) (cell.0 +ℤ pos j, cell.1)) 1 0 };

    /// False only if no move, of at most `reach` places to each side, takes all cells of a list to live ones. True
    /// promises nothing.
    fn may_have_moved(&self, list: &CellList, reach: u32) -> bool
        requires { reach ≤ age_limit }
        ensures { result ≡ false → HasNoneWithin reach list.now (members self.now) };

    /// The live cells in order.
    fn cells(&self) -> Result<CellList, AllocError>
        ensures cells { IfOk result (λ list. list ≡ members self.now) };

    /// The live cells in order, in the memory of a list that is no longer needed.
    fn cells_in(&self, list: CellList) -> Result<CellList, AllocError>
        ensures cells { IfOk result (λ new. new ≡ members self.now) };

    /// The offset of the last of its cells, by y, then by x, from the first, or (0, 0) if there is none. Sets that are
    /// equal up to a move have the same span, and few others do.
    fn span(&self) -> Result<(i32, i32), AllocError>
        ensures { IfOk result (λ span. span ≡ set_span (members self.now)) }
    {
        let cells = self.cells()?;
        Ok(span_of(cells.as_slice()))
    }

    /// The offset of its cells from the listed ones, if they are those moved as a whole. Without cells the offset is
    /// (0, 0).
    fn offset_from(&self, list: &CellList) -> Result<Option<(i32, i32)>, AllocError>
        ensures offset { IfOk result
            (λ offset. IfSome offset (λ d. IsOffset list.now (members self.now) d)) }
        ensures apart { IfOk result
            (λ offset. IfNone offset (AreNotTranslates list.now (members self.now))) }
    {
        let cells = self.cells()?;
        Ok(offset_between(list.as_slice(), cells.as_slice()))
    }

    /// The offset of its cells from those of another plane, if they are those moved as a whole.
    fn offset_from_plane(&self, other: &Self) -> Result<Option<(i32, i32)>, AllocError>
        ensures offset { IfOk result
            (λ offset. IfSome offset (λ d. IsOffset (members other.now) (members self.now) d)) }
        ensures apart { IfOk result
            (λ offset. IfNone offset (AreNotTranslates (members other.now) (members self.now))) }
    {
        self.offset_from(&other.cells()?)
    }

    /// Another plane with the same cells and the same age.
    fn copy(&self) -> Result<Self, AllocError>
        ensures cells { IfOk result (λ plane. members plane ≡ members self.now) }
        ensures age { IfOk result (λ plane. steps_made plane ≡ steps_made self.now) }
        ensures within { IfOk result
            (λ plane. All (IsWithin (steps_made plane)) (generation.cells (members plane))) };
}
