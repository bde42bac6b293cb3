//! Calls on planes of each kind.

use crate::call;
use crate::calls::promised;
use life_cells::{CellList, Rule};
use life_plane::{AGE_LIMIT, Plane};
use std::alloc::{AllocError, Global};

type Cells = &'static [(i32, i32)];

/// Two blinkers, together as wide as a square of 64 by 64 cells.
pub const SQUARE: Cells = &[(0, 0), (63, 0), (0, 1), (63, 1), (0, 2), (63, 2)];

/// Blinkers at the edges of several tiles.
pub const SPREAD: Cells = &[
    (0, 0),
    (0, 1),
    (0, 2),
    (127, 62),
    (127, 63),
    (127, 64),
    (400, 100),
    (400, 101),
    (400, 102),
];

const GLIDER: Cells = &[(1, 0), (2, 1), (0, 2), (1, 2), (2, 2)];

/// A number of steps of that glider, and its cells after them.
pub struct Walk {
    steps: u32,
    end: Cells,
}

pub const SHORT_WALK: Walk = Walk {
    steps: 4,
    end: &[(2, 1), (3, 2), (1, 3), (2, 3), (3, 3)],
};

/// It leaves its square, and then crosses tiles.
pub const LONG_WALK: Walk = Walk {
    steps: 400,
    end: &[(101, 100), (102, 101), (100, 102), (101, 102), (102, 102)],
};

// The plane of cells none of which has a negative coordinate.
fn plane_of<P: Plane>(alloc: Global, list: &CellList) -> Result<P, AllocError> {
    if !list.fits() {
        return Err(AllocError);
    }
    P::from_cells(alloc, list)
}

// True where a plane has these cells and this age.
fn shows<P: Plane>(plane: &P, cells: &[(i32, i32)], age: u32) -> bool {
    plane.age() == age && plane.cells().is_ok_and(|list| list.as_slice() == cells)
}

// Makes steps up to an age.
fn walk_to<P: Plane>(plane: &mut P, age: u32) -> Result<(), AllocError> {
    for _ in plane.age()..age {
        if plane.age() >= AGE_LIMIT {
            return Err(AllocError);
        }
        plane.step(&Rule::life())?;
    }
    Ok(())
}

// True where a plane is equal to another that began with these cells and has made as many steps.
fn is_as_new<P: Plane>(alloc: Global, plane: &P, start: &CellList) -> bool {
    let Ok(mut other) = plane_of::<P>(alloc, start) else {
        return false;
    };
    walk_to(&mut other, plane.age()).is_ok()
        && plane
            .cells()
            .is_ok_and(|list| shows(&other, list.as_slice(), plane.age()))
}

/// Calls that make a kind of plane, list its cells and copy it.
pub fn call_plane<P: Plane>(
    rt: &impl Print,
    alloc: Global,
    names: [&str; 3],
    cells: Cells,
) -> Option<()> {
    let list = CellList::of(alloc, cells).ok()?;
    let plane = call!(rt, names[0], plane_of::<P>(alloc, &list))?;
    let list = call!(rt, names[1], plane.cells())?;
    promised(list.as_slice() == cells)?;
    let copied = call!(rt, names[2], plane.copy())?;
    promised(shows(&copied, cells, 0) && shows(&plane, cells, 0))
}

/// Calls that make the steps of a glider.
pub fn call_steps<P: Plane>(rt: &impl Print, alloc: Global, name: &str, walk: &Walk) -> Option<()> {
    let start = CellList::of(alloc, GLIDER).ok()?;
    let mut plane = plane_of::<P>(alloc, &start).ok()?;
    call!(
        rt,
        name,
        walk_to(&mut plane, walk.steps),
        is_as_new(alloc, &plane, &start),
    )?;
    promised(shows(&plane, walk.end, walk.steps))
}
