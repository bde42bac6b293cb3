//! The rows at the start of a text.
ghost use Rattle.std.specs.Prelude.{◌≡◌, ◌++◌, ℕ, List, IfOk};
ghost use Rattle.census_rows.specs.declared.row.Row.{Row};
ghost use Rattle.census_rows.specs.Lines.{text_of};
ghost use Rattle.census_readback.specs.Texts.{AllLines, IsStuck, SameRows};

use census_readback::first_row;
use census_rows::Row;
use std::alloc::{AllocError, Global};

// Rows, and what comes after their lines.
#[derive(Drop)]
pub struct Front<'a> {
    pub rows: Vec<Row<'a>>,
    pub rest: &'a [u8],
}

// Reads rows from the start of a text until what follows is no row.
pub fn read_front(alloc: Global, text: &[u8]) -> Result<Front, AllocError>
    ensures sound { IfOk result (λ front. AllLines front.rows.items
        × (text.now ≡ text_of front.rows.items ++ front.rest.now) × IsStuck front.rest.now) }
    ensures all { (rows : List Row) (after : List ℕ) → AllLines rows
        → text.now ≡ text_of rows ++ after → IsStuck after
        → IfOk result (λ front. SameRows front.rows.items rows × (front.rest.now ≡ after)) }
{
    let mut rows = Vec::new(alloc);
    let mut rest = text;
    while let Some(first) = first_row(rest) {
        rows.push(first.row)?;
        rest = first.rest;
    }
    Ok(Front { rows, rest })
}
