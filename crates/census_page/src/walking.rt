//! The motion of a spaceship, found by its generations where no pattern shows it.
use crate::holders::Holders;
use crate::kind::{Kind, kind_of, period_told};
use crate::sorting::{code_in, rule_in};
use crate::speed::Way;
use census_rows::Row;
use life_cells::{Rule, Shape};
use life_plane::{AGE_LIMIT, ListPlane, Plane};
use std::alloc::{AllocError, Global};

// A spaceship is followed where its cells, times its period, are at most this.
const WORK_LIMIT: u64 = 20_000;

// It is followed as long as it has at most this many times the cells that it has at first.
const GROWTH_LIMIT: u64 = 8;

// The number that digits mean.
fn number_of(digits: &[u8]) -> u64 {
    let mut number: u64 = 0;
    for digit in digits {
        let value = u64::from(digit.saturating_sub(b'0'));
        number = number.saturating_mul(10).saturating_add(value);
    }
    number
}

// The displacement from each of these cells to the one at the same index among the later ones, if it is the same for all.
fn move_between(cells: &[(i32, i32)], later: &[(i32, i32)]) -> Option<(i64, i64)> {
    let [first, ..] = cells else {
        return None;
    };
    let [first_later, ..] = later else {
        return None;
    };
    if cells.len() != later.len() {
        return None;
    }
    let dx = i64::from(first_later.0).saturating_sub(i64::from(first.0));
    let dy = i64::from(first_later.1).saturating_sub(i64::from(first.1));
    for (cell, other) in cells.iter().zip(later) {
        let across = i64::from(other.0).saturating_sub(i64::from(cell.0));
        let down = i64::from(other.1).saturating_sub(i64::from(cell.1));
        if across != dx || down != dy {
            return None;
        }
    }
    Some((dx, dy))
}

// The motion of a shape in this number of generations, if it is the same shape after them.
fn followed(
    alloc: Global,
    rule: &Rule,
    shape: &Shape,
    period: u64,
) -> Result<Option<Way>, AllocError> {
    let cells = shape.list();
    let count = cells.as_slice().len() as u64;
    if !cells.fits() || period.saturating_mul(count) > WORK_LIMIT {
        return Ok(None);
    }
    let mut plane = ListPlane::from_cells(alloc, cells)?;
    for _ in 0..period {
        if plane.age() >= AGE_LIMIT || plane.population() > count.saturating_mul(GROWTH_LIMIT) {
            return Ok(None);
        }
        plane.step(rule)?;
    }
    let later = plane.cells()?;
    match move_between(cells.as_slice(), later.as_slice()) {
        Some((dx, dy)) => Ok(Some(Way { period, dx, dy })),
        None => Ok(None),
    }
}

// The motion of the spaceship of a code in the period that the code states, if it can be found at little expense.
fn walked(alloc: Global, row: &Row, shape: &Option<Shape>) -> Result<Option<Way>, AllocError> {
    let code = code_in(row);
    let Ok(rule) = Rule::parse(rule_in(row)) else {
        return Ok(None);
    };
    match shape {
        Some(shape) if kind_of(code) == Kind::Spaceship => {
            followed(alloc, &rule, shape, number_of(period_told(code)))
        }
        _ => Ok(None),
    }
}

/// The motion of the object of a row's code: that of the first of these patterns, which have the code, if it recurs, and
/// otherwise that of a spaceship of this shape. The only error is out of memory.
pub fn way_of(
    alloc: Global,
    holders: &Holders,
    row: &Row,
    shape: &Option<Shape>,
) -> Result<Option<Way>, AllocError> {
    match holders.way() {
        Some(way) => Ok(Some(way)),
        None => walked(alloc, row, shape),
    }
}
