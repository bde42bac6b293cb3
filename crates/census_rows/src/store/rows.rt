//! Rows, held in little memory.
ghost use Rattle.std.specs.Prelude.{◌≡◌, ◌<◌, ◌++◌, ◌∷◌, [], length, slice_index_or, MatchResult, OnOk};

use crate::row::Row;
use crate::store::page::Page;
use std::alloc::{AllocError, Global};
use std::marker::Model;
use std::mem::replace;

// The number of rows on a full page.
const PAGE_LEN: usize = 64;

/// Rows, each of which is held as its kind, its numbers in as few bytes as they need, and references to its texts. A row takes
/// some 7 bytes, 16 for each text, and for each number at most as many as it has digits. Adding rows moves none of those before
/// them.
#[derive(Drop)]
pub struct Rows<'a> {
    // The full pages.
    pages: Vec<Page<'a>>,
    // The rows after those of the full pages.
    last: Page<'a>,
    alloc: Global,
}

impl<'a> Model for Rows<'a> {
    ghost use Rattle.std.specs.Prelude.{List, ◌++◌};
    ghost use Rattle.census_rows.specs.declared.row.Row.{Row};
    ghost use Rattle.census_rows.specs.Store.Paged.{AreFull, rows_of_pages};

    ghost Value = { List Row };

    ghost view = { λ s. rows_of_pages s.pages.items ++ s.last };

    ghost invariant = { λ s. AreFull s.pages.items };
}

impl<'a> Rows<'a> {
    /// No rows.
    pub fn new(alloc: Global) -> Self
        ensures { result ≡ [] }
    {
        Rows {
            pages: Vec::new(alloc),
            last: Page::new(alloc),
            alloc,
        }
    }

    /// The number of rows.
    pub fn len(&self) -> usize
        ensures { result ≡ length self.now }
    {
        self.pages.as_slice().len() * PAGE_LEN + self.last.len()
    }

    /// The row at this index.
    pub fn row(&self, index: usize) -> Row<'a>
        requires { index < length self.now }
        ensures { result ≡ slice_index_or self.now index result }
    {
        let page = index / PAGE_LEN;
        if page < self.pages.len() {
            self.pages[page].row(index % PAGE_LEN)
        } else {
            self.last.row(index - self.pages.len() * PAGE_LEN)
        }
    }

    // Begins a new page if the last one is full.
    fn turn(&mut self) -> Result<(), AllocError>
        ensures { self.new ≡ self.old }
    {
        if self.last.len() == PAGE_LEN {
            self.pages.reserve(1)?;
            let mut full = replace(&mut self.last, Page::new(self.alloc));
            full.shrink();
            self.pages.push_reserved(full);
        }
        Ok(())
    }

    /// Appends a row. The only error is out of memory, which leaves the rows unchanged.
    pub fn push(&mut self, row: &Row<'a>) -> Result<(), AllocError>
        ensures { MatchResult result (λ _. self.new ≡ self.old ++ row.now ∷ [])
            (λ _. self.new ≡ self.old) }
    {
        self.turn()?;
        self.last.push(row)
    }
}
