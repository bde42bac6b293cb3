//! What a row claims.
ghost use Rattle.std.specs.Prelude.{◌≡◌, IfOk, OnOk, map, option_map};
ghost use Rattle.census_compare.specs.Claims.{claim_from, claim_in, claim_read, no_claim, title_read, with_cell, with_value};
ghost use Rattle.census_compare.specs.Read.{row_read};

use crate::columns::{Title, fits};
use crate::rows::TextRow;
use census_table::Column;
use std::alloc::{AllocError, Global};

/// What a claim says that a pattern has in a column. It is never empty.
#[derive(Drop)]
pub struct Cell {
    pub column: Column,
    pub value: Vec<u8>,
}

/// What is claimed about the pattern of this name: in the collection of this name, unless that is empty.
#[derive(Drop)]
pub struct Claim {
    pub name: Vec<u8>,
    pub collection: Vec<u8>,
    pub cells: Vec<Cell>,
}

// A copy of bytes.
fn copied(alloc: Global, bytes: &[u8]) -> Result<Vec<u8>, AllocError>
    ensures { IfOk result (λ copy. copy.items ≡ bytes.now) }
{
    let mut copy = Vec::new(alloc);
    copy.extend_from_slice(bytes)?;
    Ok(copy)
}

// Claims a value in a column, unless it is empty.
fn add_value(
    alloc: Global,
    claim: &mut Claim,
    column: Column,
    value: &[u8],
) -> Result<(), AllocError>
    ensures { OnOk result
        (claim_read claim.new ≡ with_value column value.now (claim_read claim.old)) }
{
    if !value.is_empty() {
        let value = copied(alloc, value)?;
        claim.cells.push(Cell { column, value })?;
    }
    Ok(())
}

// Claims what the cell of a column says.
fn add_cell(
    alloc: Global,
    claim: &mut Claim,
    column: &Option<Column>,
    cell: &[u8],
) -> Result<(), AllocError>
    ensures { OnOk result
        (claim_read claim.new ≡ with_cell column.now cell.now (claim_read claim.old)) }
{
    match column {
        None => {}
        Some(Column::Name) => claim.name = copied(alloc, cell)?,
        Some(Column::CollectionName) => claim.collection = copied(alloc, cell)?,
        Some(column) => add_value(alloc, claim, *column, cell)?,
    }
    Ok(())
}

// What a row with these cells claims. `None`: it has more or fewer cells than there are titles, or a cell in a column of
// numbers is no number.
fn claim_of(alloc: Global, titles: &[Title], cells: &[Vec<u8>]) -> Result<Option<Claim>, AllocError>
    ensures { IfOk result (λ claim. option_map claim_read claim
        ≡ claim_from no_claim (map title_read titles.now) (map (λ cell. cell.items) cells.now)) }
{
    if titles.len() != cells.len() {
        return Ok(None);
    }
    let mut claim = Claim {
        name: Vec::new(alloc),
        collection: Vec::new(alloc),
        cells: Vec::new(alloc),
    };
    for index in 0..titles.len() {
        let column = titles[index].column;
        let cell = cells[index].as_slice();
        if !fits(&column, cell) {
            return Ok(None);
        }
        add_cell(alloc, &mut claim, &column, cell)?;
    }
    Ok(Some(claim))
}

/// What a row claims. `None`: it is faulty, has more or fewer cells than there are titles, or a cell in a column of numbers is no
/// number. The only error is out of memory.
pub fn claim_in(alloc: Global, titles: &[Title], row: TextRow) -> Result<Option<Claim>, AllocError>
    ensures { IfOk result (λ claim. option_map claim_read claim ≡ claim_in (map title_read titles.now) (row_read row)) }
{
    match row {
        TextRow::Whole(_, cells) => claim_of(alloc, titles, cells.as_slice()),
        TextRow::Broken(_) => Ok(None),
    }
}
