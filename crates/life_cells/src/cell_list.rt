//! Finite sets of cells as lists in order.
ghost use Rattle.std.specs.Prelude.{◌≡◌, ◌+◌, ◌↔◌, ◌≤◌, ◌≤ℤ◌, neg_ℤ, pos, All, IfOk, IsTrue, List, OnOk, T, ℤ};
ghost use Rattle.life_model.specs.Generation.{Generation, empty, from_list, is_rising};
ghost use Rattle.life_model.specs.Generation as generation;
ghost use Rattle.life_cells.specs.Limits.{IsPlace, IsWithin, age_limit, last_pattern_place};
ghost use Rattle.life_cells.specs.declared.cell_list.CellFault.TheVariants.{OutOfField};

use crate::limits::{COORDINATE_LIMIT, PLACE_LIMIT};
use crate::order::put_in_order;
use std::alloc::{AllocError, Global};
use std::marker::Model;
use thiserror::Error;

/// The reason why cells don't make a list of cells.
#[derive(Clone, Copy, Debug, PartialEq, Eq, Drop, Error)]
pub enum CellFault {
    /// A coordinate below -16,777,216 or above 16,777,215.
    #[error("cell fault 1")]
    OutOfField,
    /// Out of memory.
    #[error("out of memory")]
    Memory,
}

impl From<AllocError> for CellFault {
    ghost use Rattle.std.specs.Prelude.{◌≡◌};
    ghost use Rattle.life_cells.specs.declared.cell_list.CellFault.TheVariants.{Memory};

    ghost from_gives = { λ _ e. e ≡ Memory };

    fn from(_: AllocError) -> CellFault {
        CellFault::Memory
    }
}

/// A finite set of cells `(x, y)`, sorted by y, then by x, each once. Every coordinate is from -16,777,216 to 16,777,215.
#[derive(Drop)]
pub struct CellList {
    items: Vec<(i32, i32)>,
}

impl Model for CellList {
    ghost use Rattle.std.specs.Prelude.{T, All};
    ghost use Rattle.life_model.specs.Coded.{coded_generation};
    ghost use Rattle.life_model.specs.Generation.{Generation, from_list, is_rising};
    ghost use Rattle.life_cells.specs.Limits.{IsPlace};

    ghost Value = { Generation };

    ghost coded = { coded_generation };

    ghost view = { λ l. from_list l.items.items };

    ghost invariant = { λ l. T (is_rising l.items.items) × All IsPlace l.items.items };
}

/// True where a cell is within the range of a list of cells.
fn is_place(cell: (i32, i32)) -> bool
    ensures { IsTrue result ↔ IsPlace cell }
{
    -COORDINATE_LIMIT <= cell.0
        && cell.0 < COORDINATE_LIMIT
        && -COORDINATE_LIMIT <= cell.1
        && cell.1 < COORDINATE_LIMIT
}

/// True where a coordinate is from -`age` to 1,048,575 + `age`.
fn is_between(place: i32, age: u32) -> bool
    requires { age ≤ age_limit }
    ensures { IsTrue result ↔ (neg_ℤ (pos age) ≤ℤ place × place ≤ℤ pos (last_pattern_place + age)) }
{
    let past = PLACE_LIMIT as i32 + age as i32;
    if place >= past {
        return false;
    }
    -(age as i32) <= place
}

/// True where both coordinates of a cell are from -`age` to 1,048,575 + `age`.
fn is_in_field(cell: (i32, i32), age: u32) -> bool
    requires { age ≤ age_limit }
    ensures { IsTrue result ↔ IsWithin age cell }
{
    is_between(cell.0, age) && is_between(cell.1, age)
}

/// True where all cells are within the range of a list of cells.
fn are_places(cells: &[(i32, i32)]) -> bool
    ensures { IsTrue result ↔ All IsPlace cells.now }
{
    for cell in cells {
        if !is_place(*cell) {
            return false;
        }
    }
    true
}

/// True where all coordinates of the cells are from -`age` to 1,048,575 + `age`.
fn are_in_field(cells: &[(i32, i32)], age: u32) -> bool
    requires { age ≤ age_limit }
    ensures { IsTrue result ↔ All (IsWithin age) cells.now }
{
    for cell in cells {
        if !is_in_field(*cell, age) {
            return false;
        }
    }
    true
}

impl CellList {
    /// The set of these cells `(x, y)`, which may come in any order and with repeats.
    ///
    /// The result is `OutOfField` if a coordinate is below -16,777,216 or above 16,777,215. This is checked before any
    /// memory is requested.
    pub fn of(alloc: Global, cells: &[(i32, i32)]) -> Result<CellList, CellFault>
        ensures cells { IfOk result (λ list. list ≡ from_list cells.now) }
        ensures lawful { OnOk result (All IsPlace cells.now) }
        // This fault precedes out of memory.
        ensures outside { (result ≡ Err OutOfField) ↔ (All IsPlace cells.now → ⊥) }
    {
        if !are_places(cells) {
            return Err(CellFault::OutOfField);
        }
        let mut items = cells.to_vec(alloc)?;
        put_in_order(&mut items);
        Ok(CellList { items })
    }

    /// The empty set, with memory for `capacity` cells.
    pub fn with_capacity(alloc: Global, capacity: usize) -> Result<CellList, AllocError>
        ensures { IfOk result (λ list. list ≡ empty) }
    {
        Ok(CellList {
            items: Vec::with_capacity(alloc, capacity)?,
        })
    }

    /// The set of these cells, which are sorted by y, then by x, each once.
    pub fn from_ordered(items: Vec<(i32, i32)>) -> CellList
        requires rising { T (is_rising items.items) }
        requires placed { All IsPlace items.items }
        ensures { result ≡ from_list items.items }
    {
        CellList { items }
    }

    /// The cells, sorted by y, then by x, each once, in the memory of the list.
    pub fn into_vec(self) -> Vec<(i32, i32)>
        ensures cells { result.items ≡ generation.cells self }
        ensures rising { T (is_rising result.items) }
        ensures placed { All IsPlace result.items }
    {
        self.items
    }

    /// The cells, sorted by y, then by x, each once.
    pub fn as_slice(&self) -> &[(i32, i32)]
        ensures cells { result.now ≡ generation.cells self.now }
        ensures rising { T (is_rising result.now) }
        ensures placed { All IsPlace result.now }
    {
        self.items.as_slice()
    }

    /// The number of cells.
    pub fn len(&self) -> usize
        ensures { result ≡ generation.size self.now }
    {
        self.items.len()
    }

    /// True where there is no cell.
    pub fn is_empty(&self) -> bool
        ensures { IsTrue result ↔ (self.now ≡ empty) }
    {
        self.as_slice().is_empty()
    }

    /// True where every coordinate is from 0 to 1,048,575.
    pub fn fits(&self) -> bool
        ensures { IsTrue result ↔ All (IsWithin 0) (generation.cells self.now) }
    {
        self.fits_at(0)
    }

    /// True where every coordinate is from -`age` to 1,048,575 + `age`, the range of a pattern's cells in that generation. The
    /// age is at most 4,194,304.
    pub fn fits_at(&self, age: u32) -> bool
        requires { age ≤ age_limit }
        ensures { IsTrue result ↔ All (IsWithin age) (generation.cells self.now) }
    {
        are_in_field(self.as_slice(), age)
    }
}
