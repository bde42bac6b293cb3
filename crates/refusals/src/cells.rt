//! Lists of cells, shapes and Wechsler texts.

use crate::call;
use crate::calls::{START, has_appended, promised};
use life_cells::{CellList, Orient, Shape, read_wechsler};
use std::alloc::{AllocError, Global};

// Cells in no order and with a repeat.
const CELLS: &[(i32, i32)] = &[(9, 7), (7, 9), (8, 9), (10, 8), (9, 9), (8, 9), (10, 9)];

const IN_ORDER: &[(i32, i32)] = &[(9, 7), (10, 8), (7, 9), (8, 9), (9, 9), (10, 9)];

// Their shape, and the same with x and y exchanged.
const SHAPE: &[(i32, i32)] = &[(2, 0), (3, 1), (0, 2), (1, 2), (2, 2), (3, 2)];

const TURNED: &[(i32, i32)] = &[(2, 0), (2, 1), (0, 2), (2, 2), (1, 3), (2, 3)];

// The text of 72 cells in three strips.
const TEXT: &[u8] = b"ffffffzffffffzffffff";

// The shape of cells none of which has a negative coordinate, and their corner.
fn shape_of(alloc: Global, list: &CellList) -> Result<(Shape, (i32, i32)), AllocError> {
    if !list.fits() {
        return Err(AllocError);
    }
    Shape::of(alloc, list)
}

/// Calls that make a list, its shape, and the shape turned.
pub fn call_shapes(rt: &impl Print, alloc: Global) -> Option<()> {
    let list = call!(rt, "CellList::of", CellList::of(alloc, CELLS))?;
    promised(list.as_slice() == IN_ORDER)?;
    let (shape, corner) = call!(rt, "Shape::of", shape_of(alloc, &list))?;
    promised(shape.list().as_slice() == SHAPE && corner == (7, 7))?;
    let turned = call!(rt, "Shape::turned", shape.turned(Orient::Swap))?;
    promised(turned.list().as_slice() == TURNED)
}

/// Calls that read and append a Wechsler text.
pub fn call_texts(rt: &impl Print, alloc: Global) -> Option<()> {
    let shape = call!(rt, "read_wechsler", read_wechsler(alloc, TEXT))?;
    let mut text = Vec::from_slice(alloc, START).ok()?;
    call!(
        rt,
        "Shape::encode",
        shape.encode(&mut text),
        text.as_slice() == START,
    )?;
    promised(has_appended(&text, TEXT))
}
