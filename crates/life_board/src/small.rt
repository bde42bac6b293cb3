//! A pattern in one square of cells.
ghost use Rattle.std.specs.Prelude.{◌≡◌, ◌≢◌, ◌⊎◌, ◌↔◌, ℕ, ℤ, pos, negsuc, ◌+◌, ◌+ℤ◌, ◌<◌, ◌≤◌, ◌≤ℤ◌, All, IfOk, IfSome, MatchOption, [], false, length, slice_index};
ghost use Rattle.life_model.specs.Evolution.{next};
ghost use Rattle.life_model.specs.Generation.{from_list, insert, size};
ghost use Rattle.life_plane.specs.Area.{tile_cell};
ghost use Rattle.life_cells.specs.Limits.{IsWithin, age_limit};
ghost use Rattle.life_plane.specs.Span.{set_span};
ghost use Rattle.life_slots.specs.Cells.{block_cells, row_cells};
ghost use Rattle.life_board.specs.Squares.{members_of, AreColumnsOf, AreEnds, HasNoMember, StaysInSquare, IsInner, IsSquare, IsFarFromEnds, IsVoidOutside};
ghost use Rattle.life_board.specs.Limits.{corner_limit};

use crate::ends::{first_in, last_in};
use crate::rows::{advance, end_of_rows, first_row};
use life_cells::{CellList, Rule};
use life_plane::{Tile, move_between};
use life_slots::{Rim, push_row};
use std::alloc::{AllocError, Global};

/// The number of cells up to which a list never has to grow.
const FEW: usize = 64;

/// The least distance from the edge of a cell that is put into a square.
const MARGIN: i32 = 8;

/// The row around which cells are put into a square.
const MIDDLE: usize = 32;

/// 64 by 64 cells at a place, and the number of steps they have made. All other cells are dead.
#[derive(Clone, Copy)]
pub struct Square {
    pub alloc: Global,
    pub tile: Tile,
    /// The x of column 0.
    pub left: i32,
    /// The y of row 0.
    pub top: i32,
    /// No row before this one has a live cell.
    pub first: usize,
    /// No row from this one on has a live cell.
    pub end: usize,
    /// For each column, a bit that is set if one of its cells is live.
    pub columns: u64,
    pub age: u32,
}

/// False only if no live cell of a tile is at its edge.
fn is_at_edge(tile: &Tile, columns: u64) -> bool
    requires { AreColumnsOf columns tile.now }
    ensures { result ≡ false → IsInner tile.now }
{
    let rim = Rim {
        first: tile.rows[0],
        last: tile.rows[63],
        columns,
    };
    let north = rim.reaches(1);
    let west = rim.reaches(3);
    let east = rim.reaches(5);
    let south = rim.reaches(7);
    north | west | east | south
}

/// The number of live cells of a row.
fn count_row(row: u64) -> u64
    ensures few { result ≤ 64 }
    ensures cells { (left y : ℤ) → result ≡ length (row_cells left y row 64) }
{
    u64::from(row.count_ones())
}

/// The number of live cells of a tile.
fn count_rows(tile: &Tile, first: usize, end: usize) -> u64
    requires { IsVoidOutside tile.now.rows first end }
    ensures { (left top : ℤ) → result ≡ length (block_cells left top tile.now.rows 64) }
{
    let mut count = 0;
    for y in first..end {
        count += count_row(tile.rows[y]);
    }
    count
}

/// Makes a cell of a tile live. Every other cell is unchanged.
fn make_live(tile: &mut Tile, x: usize, y: usize)
    requires column { x < 64 }
    requires row { y < 64 }
    ensures here { tile_cell tile.new x y ≡ 1 }
    ensures elsewhere { (p q : ℕ) → p < 64 → (p ≢ x) ⊎ (q ≢ y) →
        tile_cell tile.new p q ≡ tile_cell tile.old p q }
    ensures others { (k : ℕ) → k ≢ y → slice_index tile.new.rows k ≡ slice_index tile.old.rows k }
{
    tile.rows[y] |= 1 << x;
}

/// The number of a column among the 64 from a column on, if it is not too near to the first or the last. It is used for
/// rows too.
fn column_of(z: i32, from: i32) -> Option<usize>
    requires west { negsuc corner_limit ≤ℤ z }
    requires east { z ≤ℤ pos corner_limit }
    requires from_west { negsuc corner_limit ≤ℤ from }
    requires from_east { from ≤ℤ pos corner_limit }
    ensures first { IfSome result (λ n. 8 ≤ n) }
    ensures last { IfSome result (λ n. n < 56) }
    ensures is { IfSome result (λ n. z ≡ (from +ℤ pos n)) }
{
    let offset = z - from;
    if MARGIN <= offset && offset < 64 - MARGIN {
        Some(offset as usize)
    } else {
        None
    }
}

impl Square {
    /// The empty square.
    pub fn empty(alloc: Global, left: i32, top: i32, age: u32) -> Square
        requires place { IsFarFromEnds left top }
        requires young { age ≤ age_limit }
        ensures kept { IsSquare result }
        ensures members { members_of result ≡ from_list [] }
        ensures age { result.age ≡ age }
    {
        Square {
            alloc,
            tile: Tile::EMPTY,
            left,
            top,
            first: MIDDLE,
            end: MIDDLE,
            columns: 0,
            age,
        }
    }

    /// Makes a cell live, if it is not too near to the edge.
    fn put(&mut self, cell: (i32, i32)) -> Option<()>
        requires kept { IsSquare self.old }
        requires within { IsWithin self.old.age cell }
        ensures kept { IfSome result (λ _. IsSquare self.new) }
        ensures members { IfSome result
            (λ _. members_of self.new ≡ insert (members_of self.old) cell) }
        ensures age { self.new.age ≡ self.old.age }
    {
        let x = column_of(cell.0, self.left)?;
        let y = column_of(cell.1, self.top)?;
        self.first = self.first.min(y);
        self.end = self.end.max(y + 1);
        self.columns |= 1 << x;
        make_live(&mut self.tile, x, y);
        Some(())
    }

    /// Makes cells live in an empty square, if none of them is too near to its edge.
    pub fn put_all(&mut self, cells: &[(i32, i32)]) -> Option<()>
        requires kept { IsSquare self.old }
        requires empty { members_of self.old ≡ from_list [] }
        requires within { All (IsWithin self.old.age) cells.now }
        ensures kept { IfSome result (λ _. IsSquare self.new) }
        ensures members { IfSome result (λ _. members_of self.new ≡ from_list cells.now) }
        ensures age { IfSome result (λ _. self.new.age ≡ self.old.age) }
    {
        for cell in cells {
            self.put(*cell)?;
        }
        Some(())
    }

    /// Drops rows without a live cell from both ends of the range.
    fn shrink(&mut self)
        requires { IsSquare self.old }
        ensures kept { IsSquare self.new }
        ensures members { members_of self.new ≡ members_of self.old }
        ensures age { self.new.age ≡ self.old.age }
    {
        self.first = first_row(&self.tile, self.first, self.end);
        self.end = end_of_rows(&self.tile, self.first, self.end);
    }

    /// False only if the next generation has no cell outside the square.
    pub fn is_full(&self) -> bool
        requires { IsSquare self.now }
        ensures { result ≡ false → StaysInSquare self.now }
    {
        self.first == 0 || self.end > 62 || is_at_edge(&self.tile, self.columns)
    }

    /// Makes the next generation.
    pub fn advance(&mut self, rule: &Rule)
        requires kept { IsSquare self.old }
        requires room { StaysInSquare self.old }
        requires young { self.old.age < age_limit }
        ensures kept { IsSquare self.new }
        ensures members { members_of self.new ≡ next rule.now (members_of self.old) }
        ensures age { self.new.age ≡ self.old.age + 1 }
    {
        self.columns = advance(&mut self.tile, self.first, self.end, rule);
        self.first -= 1;
        self.end += 1;
        self.age += 1;
        self.shrink();
    }

    /// The number of live cells.
    pub fn population(&self) -> u64
        requires { IsSquare self.now }
        ensures { result ≡ size (members_of self.now) }
    {
        count_rows(&self.tile, self.first, self.end)
    }

    /// The live cells.
    pub fn cells(&self) -> Result<CellList, AllocError>
        requires { IsSquare self.now }
        ensures { IfOk result (λ list. list ≡ members_of self.now) }
    {
        self.cells_in(CellList::with_capacity(self.alloc, FEW)?)
    }

    /// The live cells, in the memory of a list that is no longer needed.
    pub fn cells_in(&self, list: CellList) -> Result<CellList, AllocError>
        requires { IsSquare self.now }
        ensures { IfOk result (λ new. new ≡ members_of self.now) }
    {
        let mut cells = list.into_vec();
        cells.clear();
        for y in self.first..self.end {
            push_row(
                &mut cells,
                self.left,
                self.top + y as i32,
                self.tile.rows[y],
            )?;
        }
        Ok(CellList::from_ordered(cells))
    }

    /// The cell in a column and a row.
    fn cell_at(&self, x: usize, y: usize) -> (i32, i32)
        requires kept { IsSquare self.now }
        requires column { x < 64 }
        requires row { y < 64 }
        ensures { result ≡ (self.now.left +ℤ pos x, self.now.top +ℤ pos y) }
    {
        (self.left + x as i32, self.top + y as i32)
    }

    /// The first and the last of the live cells, by y, then by x.
    pub fn ends(&self) -> Option<((i32, i32), (i32, i32))>
        requires { IsSquare self.now }
        ensures { MatchOption result (HasNoMember (members_of self.now))
            (AreEnds (members_of self.now)) }
    {
        let (left, top) = first_in(&self.tile, self.first, self.end)?;
        let (right, bottom) = last_in(&self.tile, self.first, self.end)?;
        Some((self.cell_at(left, top), self.cell_at(right, bottom)))
    }

    /// The offset of the last of its cells, by y, then by x, from the first, or (0, 0) if there is none.
    pub fn span(&self) -> Result<(i32, i32), AllocError>
        requires { IsSquare self.now }
        ensures { IfOk result (λ span. span ≡ set_span (members_of self.now)) }
    {
        Ok(match self.ends() {
            Some(ends) => move_between(ends.0, ends.1),
            None => (0, 0),
        })
    }
}
