//! The numbers of the collections that are closed.
ghost use Rattle.std.specs.Prelude.{◌≡◌, ◌<◌, length, IfOk, IfSome};
ghost use Rattle.census_readback.specs.Limits.{count_limit};
ghost use Rattle.census_merge.specs.Kept.{closed_to, most};
ghost use Rattle.census_merge.specs.Numbers.{AreFlags, AreNumbers, closed_index, marked};

use census_readback::COUNT_LIMIT;
use census_rows::Row;
use std::alloc::{AllocError, Global};

// The collection that a row closes, less 1, if it closes one that a report may have.
fn closed_index(row: &Row) -> Option<usize>
    ensures value { result ≡ closed_index row.now }
    ensures within { IfSome result (λ index. index < count_limit) }
{
    match row {
        Row::Close { collection, .. } if 0 < *collection && *collection <= COUNT_LIMIT => {
            Some(*collection as usize - 1)
        }
        _ => None,
    }
}

// Marks the collection that a row closes as closed.
fn mark(flags: &mut Vec<bool>, row: &Row)
    requires { length flags.old.items ≡ count_limit }
    ensures { flags.new.items ≡ marked (closed_index row.now) flags.old.items }
{
    if let Some(index) = closed_index(row) {
        flags[index] = true;
    }
}

// For each collection that a report may have, whether these rows close it.
fn closed_by(alloc: Global, count: usize, rows: &[Row]) -> Result<Vec<bool>, AllocError>
    requires { count ≡ count_limit }
    ensures { IfOk result (λ flags. AreFlags rows.now flags.items) }
{
    let mut flags = vec![in alloc; false; count]?;
    for row in rows {
        mark(&mut flags, row);
    }
    Ok(flags)
}

// For each collection its number if it is closed, else 0; and how many are closed.
#[derive(Drop)]
pub struct Numbers {
    pub each: Vec<u64>,
    pub count: u64,
}

// The numbers of the collections that these rows close, from 1 on in their order.
pub fn numbers_of(alloc: Global, rows: &[Row]) -> Result<Numbers, AllocError>
    ensures each { IfOk result (λ numbers. AreNumbers rows.now numbers.each.items) }
    ensures count { IfOk result (λ numbers. numbers.count ≡ closed_to rows.now most) }
{
    let flags = closed_by(alloc, COUNT_LIMIT as usize, rows)?;
    let mut each = Vec::new(alloc);
    let mut count = 0;
    for index in 0..flags.len() {
        if flags[index] {
            count += 1;
            each.push(count)?;
        } else {
            each.push(0)?;
        }
    }
    Ok(Numbers { each, count })
}
