//! Selections of rows.
ghost use Rattle.std.specs.Prelude.{◌≡◌, ◌<◌, ◌≤◌, ◌∷◌, [], drop, length, slice_index_or, take, MatchOption};
ghost use Rattle.census_rows.specs.Store.Placed.{AreWithin, rows_numbered};

use crate::row::Row;
use crate::store::rows::Rows;
use std::marker::Model;

/// Some of the rows, in an order of their own: borrowed, by their numbers.
#[derive(Drop)]
pub struct Section<'b, 'a> {
    rows: &'b Rows<'a>,
    numbers: &'b [u32],
}

impl<'b, 'a> Model for Section<'b, 'a> {
    ghost use Rattle.std.specs.Prelude.{List};
    ghost use Rattle.census_rows.specs.declared.row.Row.{Row};

    ghost Value = { List Row };

    ghost use Rattle.census_rows.specs.Store.Placed.{AreWithin, rows_numbered};

    ghost view = { λ s. rows_numbered s.rows.now s.numbers.now };

    ghost invariant = { λ s. AreWithin s.rows.now s.numbers.now };
}

impl<'b, 'a> Section<'b, 'a> {
    /// The rows with these numbers, which count from 0.
    pub fn new(rows: &'b Rows<'a>, numbers: &'b [u32]) -> Self
        requires { AreWithin rows.now numbers.now }
        ensures { result ≡ rows_numbered rows.now numbers.now }
    {
        Section { rows, numbers }
    }

    /// The number of rows.
    pub fn len(&self) -> usize
        ensures { result ≡ length self.now }
    {
        self.numbers.len()
    }

    /// The row at this index.
    pub fn row(&self, index: usize) -> Row<'a>
        requires { index < length self.now }
        ensures { result ≡ slice_index_or self.now index result }
    {
        let numbers = self.numbers;
        let rows = self.rows;
        rows.row(numbers[index] as usize)
    }

    /// The first row, and those after it.
    pub fn split_first(&self) -> Option<(Row<'a>, Section<'b, 'a>)>
        ensures { MatchOption result (self.now ≡ [])
            (λ parts. self.now ≡ parts.0 ∷ parts.1) }
    {
        if self.numbers.is_empty() {
            return None;
        }
        Some((self.row(0), self.from(1)))
    }

    /// The rows from this index on.
    pub fn from(&self, index: usize) -> Section<'b, 'a>
        requires { index ≤ length self.now }
        ensures { result ≡ drop index self.now }
    {
        let (_, numbers) = self.numbers.split_at(index);
        Section {
            rows: self.rows,
            numbers,
        }
    }

    /// The rows before this index.
    pub fn before(&self, index: usize) -> Section<'b, 'a>
        requires { index ≤ length self.now }
        ensures { result ≡ take index self.now }
    {
        let (numbers, _) = self.numbers.split_at(index);
        Section {
            rows: self.rows,
            numbers,
        }
    }
}
