//! A pattern in one square or in many tiles.
ghost use Rattle.std.specs.Prelude.{◌≡◌, ℕ, ◌+◌, ◌+ℤ◌, ◌<◌, ◌≤◌, pos, cond, false, All, IfNone, IfOk, IfSome, OnOk, OnErr, []};
ghost use Rattle.life_model.specs.Evolution.{next};
ghost use Rattle.std.specs.Int.{bit_at};
ghost use Rattle.life_model.specs.Generation.{contains, from_list, size};
ghost use Rattle.life_model.specs.Generation as generation;
ghost use Rattle.life_cells.specs.Limits.{IsPlace, IsWithin, age_limit};
ghost use Rattle.life_plane.specs.Span.{set_span};
ghost use Rattle.life_plane.specs.Offsets.{AreNotTranslates, HasNoneWithin, IsOffset};
ghost use Rattle.life_board.specs.Kinds.{age_of, members_of, StaysInSquare, IsKind};
ghost use Rattle.life_board.specs.Squares as squares;

use crate::covering::row_from;
use crate::offset::{offset_from, offset_from_square};
use crate::placing::corner_around;
use crate::small::Square;
use crate::standing::may_stand;
use life_cells::{CellList, Rule};
use life_plane::Plane;
use life_tile::TilePlane;
use std::alloc::{AllocError, Global};

/// The cells of a board, in one of two forms.
#[derive(Drop)]
pub enum Kind {
    Small(Square),
    Large(TilePlane),
}

/// The cells of a square as tiles.
fn as_tiles(square: &Square) -> Result<TilePlane, AllocError>
    requires { squares.IsSquare square.now }
    ensures cells { IfOk result (λ plane. plane.0 ≡ squares.members_of square.now) }
    ensures age { IfOk result (λ plane. plane.1 ≡ square.now.age) }
    ensures within { IfOk result (λ plane. All (IsWithin plane.1) (generation.cells plane.0)) }
{
    TilePlane::at_age(square.alloc, &square.cells()?, square.age)
}

impl Kind {
    /// An empty square with the same middle as the cells of a list, if they fit into it.
    pub fn around(alloc: Global, list: &CellList, age: u32) -> Kind
        requires { age ≤ age_limit }
        ensures kept { IsKind result }
        ensures empty { members_of result ≡ from_list [] }
        ensures age { age_of result ≡ age }
    {
        let (left, top) = corner_around(list.as_slice());
        Kind::Small(Square::empty(alloc, left, top, age))
    }

    /// Puts the cells of a list into an empty square, or into tiles if a cell is too near to the edge of the square.
    pub fn fill(&mut self, alloc: Global, list: &CellList, age: u32) -> Result<(), AllocError>
        requires kept { IsKind self.old }
        requires empty { members_of self.old ≡ from_list [] }
        requires same_age { age_of self.old ≡ age }
        requires age { age ≤ age_limit }
        requires within { All (IsWithin age) (generation.cells list.now) }
        ensures kept { OnOk result (IsKind self.new) }
        ensures cells { OnOk result (members_of self.new ≡ list.now) }
        ensures age { OnOk result (age_of self.new ≡ age) }
    {
        if let Kind::Small(square) = self {
            if let Some(()) = square.put_all(list.as_slice()) {
                return Ok(());
            }
        }
        self.fill_tiles(alloc, list, age)
    }

    /// Puts the cells of a list into tiles, whatever was there before.
    ///
    /// It is not inlined: in `fill`, it would make every square reserve stack space for tiles first.
    #[inline(never)]
    fn fill_tiles(&mut self, alloc: Global, list: &CellList, age: u32) -> Result<(), AllocError>
        requires age { age ≤ age_limit }
        requires within { All (IsWithin age) (generation.cells list.now) }
        ensures kept { OnOk result (IsKind self.new) }
        ensures cells { OnOk result (members_of self.new ≡ list.now) }
        ensures age { OnOk result (age_of self.new ≡ age) }
    {
        *self = Kind::Large(TilePlane::at_age(alloc, list, age)?);
        Ok(())
    }

    /// Keeps the cells in tiles from now on.
    ///
    /// It is not inlined: in `step`, it would make each step of a square reserve stack space for tiles first.
    #[inline(never)]
    fn leave_square(&mut self) -> Result<(), AllocError>
        requires { IsKind self.old }
        ensures kept { IsKind self.new }
        ensures cells { members_of self.new ≡ members_of self.old }
        ensures age { age_of self.new ≡ age_of self.old }
        ensures room { OnOk result (StaysInSquare self.new) }
    {
        if let Kind::Small(square) = self {
            *self = Kind::Large(as_tiles(square)?);
        }
        Ok(())
    }

    /// Makes room for a next generation that may have a cell outside a square.
    fn make_room(&mut self) -> Result<(), AllocError>
        requires { IsKind self.old }
        ensures kept { IsKind self.new }
        ensures cells { members_of self.new ≡ members_of self.old }
        ensures age { age_of self.new ≡ age_of self.old }
        ensures room { OnOk result (StaysInSquare self.new) }
    {
        if let Kind::Small(square) = self {
            if square.is_full() {
                return self.leave_square();
            }
        }
        Ok(())
    }

    /// Makes the next generation. After an `Err` the cells and the age are unchanged.
    pub fn step(&mut self, rule: &Rule) -> Result<(), AllocError>
        requires kept { IsKind self.old }
        requires young { age_of self.old < age_limit }
        ensures kept { IsKind self.new }
        ensures cells { OnOk result (members_of self.new ≡ next rule.now (members_of self.old)) }
        ensures age { OnOk result (age_of self.new ≡ age_of self.old + 1) }
        ensures cells_unchanged { OnErr result (members_of self.new ≡ members_of self.old) }
        ensures age_unchanged { OnErr result (age_of self.new ≡ age_of self.old) }
    {
        self.make_room()?;
        match self {
            Kind::Small(square) => {
                square.advance(rule);
                Ok(())
            }
            Kind::Large(plane) => plane.step(rule),
        }
    }

    /// The number of live cells.
    pub fn population(&self) -> u64
        requires { IsKind self.now }
        ensures { result ≡ size (members_of self.now) }
    {
        match self {
            Kind::Small(square) => square.population(),
            Kind::Large(plane) => plane.population(),
        }
    }

    /// The number of bands of eight rows that the next step computes. No answer depends on it.
    pub fn active_bands(&self) -> u64 {
        match self {
            Kind::Small(square) => square.end.saturating_sub(square.first) as u64 / 8 + 1,
            Kind::Large(plane) => plane.active_bands(),
        }
    }

    /// The number of steps it has made.
    pub fn age(&self) -> u32
        requires { IsKind self.now }
        ensures age { result ≡ age_of self.now }
        ensures within { All (IsWithin (age_of self.now)) (generation.cells (members_of self.now)) }
    {
        match self {
            Kind::Small(square) => square.age,
            Kind::Large(plane) => plane.age(),
        }
    }

    /// The cell and the 63 to the east of it. Each is live if its bit is set: the first has bit 0.
    pub fn row(&self, cell: (i32, i32)) -> u64
        requires kept { IsKind self.now }
        requires placed { IsPlace cell }
        ensures { (j : ℕ) → j < 64 →
            bit_at result j ≡ cond (contains (members_of self.now) (cell.0 +ℤ pos j, cell.1)) 1 0 }
    {
        match self {
            Kind::Small(square) => row_from(square, cell),
            Kind::Large(plane) => plane.row(cell),
        }
    }

    /// False only if no move, of at most `reach` places to each side, takes all cells of a list to live ones.
    pub fn may_have_moved(&self, list: &CellList, reach: u32) -> bool
        requires kept { IsKind self.now }
        requires reach { reach ≤ age_limit }
        ensures { result ≡ false → HasNoneWithin reach list.now (members_of self.now) }
    {
        match self {
            Kind::Small(square) => may_stand(square, list.as_slice()),
            Kind::Large(plane) => plane.may_have_moved(list, reach),
        }
    }

    /// The live cells in order.
    pub fn cells(&self) -> Result<CellList, AllocError>
        requires { IsKind self.now }
        ensures { IfOk result (λ list. list ≡ members_of self.now) }
    {
        match self {
            Kind::Small(square) => square.cells(),
            Kind::Large(plane) => plane.cells(),
        }
    }

    /// The live cells in order, in the memory of a list that is no longer needed.
    pub fn cells_in(&self, list: CellList) -> Result<CellList, AllocError>
        requires { IsKind self.now }
        ensures { IfOk result (λ new. new ≡ members_of self.now) }
    {
        match self {
            Kind::Small(square) => square.cells_in(list),
            Kind::Large(plane) => plane.cells_in(list),
        }
    }

    /// The offset of the last of its cells, by y, then by x, from the first, or (0, 0) if there is none.
    pub fn span(&self) -> Result<(i32, i32), AllocError>
        requires { IsKind self.now }
        ensures { IfOk result (λ span. span ≡ set_span (members_of self.now)) }
    {
        match self {
            Kind::Small(square) => square.span(),
            Kind::Large(plane) => plane.span(),
        }
    }

    /// The offset of its cells from the listed ones, if they are those moved as a whole.
    pub fn offset_from(&self, list: &CellList) -> Result<Option<(i32, i32)>, AllocError>
        requires { IsKind self.now }
        ensures offset { IfOk result
            (λ offset. IfSome offset (λ d. IsOffset list.now (members_of self.now) d)) }
        ensures apart { IfOk result
            (λ offset. IfNone offset (AreNotTranslates list.now (members_of self.now))) }
    {
        match self {
            Kind::Small(square) => Ok(offset_from(square, list.as_slice())),
            Kind::Large(plane) => plane.offset_from(list),
        }
    }

    /// The offset of its cells from those of another board, if they are those moved as a whole.
    pub fn offset_from_plane(&self, other: &Kind) -> Result<Option<(i32, i32)>, AllocError>
        requires kept { IsKind self.now }
        requires other { IsKind other.now }
        ensures offset { IfOk result
            (λ offset. IfSome offset
            (λ d. IsOffset (members_of other.now) (members_of self.now) d)) }
        ensures apart { IfOk result
            (λ offset. IfNone offset
            (AreNotTranslates (members_of other.now) (members_of self.now))) }
    {
        match self {
            Kind::Small(to) => {
                if let Kind::Small(from) = other {
                    return Ok(offset_from_square(to, from));
                }
            }
            Kind::Large(to) => {
                if let Kind::Large(from) = other {
                    return to.offset_from_plane(from);
                }
            }
        }
        self.offset_from(&other.cells()?)
    }

    /// A kind with the same cells at the same age.
    pub fn copy(&self) -> Result<Kind, AllocError>
        requires { IsKind self.now }
        ensures kept { IfOk result IsKind }
        ensures cells { IfOk result (λ kind. members_of kind ≡ members_of self.now) }
        ensures age { IfOk result (λ kind. age_of kind ≡ age_of self.now) }
    {
        match self {
            Kind::Small(square) => Ok(Kind::Small(*square)),
            Kind::Large(plane) => Ok(Kind::Large(plane.copy()?)),
        }
    }
}
