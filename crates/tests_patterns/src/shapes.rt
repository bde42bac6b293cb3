//! Shapes, their texts, and the least text of several.

use life_cells::{CellFault, CellList, Orient, Shape, read_wechsler};
use life_codes::LeastText;
use std::alloc::Global;
use std::process::Abort;
use std::test::Fail;

/// The shape of cells with coordinates that are in range, and its corner.
fn shape_of(alloc: Global, cells: &[(i32, i32)]) -> Result<(Shape, (i32, i32)), CellFault> {
    let list = CellList::of(alloc, cells)?;
    if !list.fits() {
        return Err(CellFault::OutOfField);
    }
    Ok(Shape::of(alloc, &list)?)
}

// Bodies of LifeWiki's pages on objects.
const BODIES: &[&[u8]] = &[
    b"33",
    b"318c",
    b"co9nas0san9oczgoldlo0oldlogz1047210127401",
    b"0drz32",
];

#[test]
fn what_is_read_is_written_again(rt: HostRuntime) -> Result<(), Fail> {
    for body in BODIES {
        let mut text = Vec::new(rt.alloc());
        read_wechsler(rt.alloc(), body)?.encode(&mut text)?;
        assert!(rt; text.as_slice() == *body);
    }
    Ok(())
}

const GLIDER: &[(i32, i32)] = &[(6, 8), (7, 9), (5, 10), (6, 10), (7, 10)];

// Those cells with x and y swapped, at the origin.
const SWAPPED: &[(i32, i32)] = &[(2, 0), (0, 1), (2, 1), (1, 2), (2, 2)];

#[test]
fn the_glider_is_turned(rt: HostRuntime) -> Result<(), Fail> {
    let (glider, corner) = shape_of(rt.alloc(), GLIDER)?;
    assert!(rt; corner == (5, 8) && glider.width() == 3 && glider.height() == 3);
    let swapped = glider.turned(Orient::Swap)?;
    assert!(rt; swapped.list().as_slice() == SWAPPED && swapped != glider);
    Ok(())
}

/// The least text of the sets that these texts describe.
fn least_of(rt: &impl Abort, alloc: Global, texts: &[&str]) -> Result<Vec<u8>, Fail> {
    let mut least = LeastText::new(alloc);
    for text in texts {
        let shape = read_wechsler(alloc, text.as_bytes())?;
        assert!(rt; shape.width() <= 1_000 && shape.height() <= 1_000);
        least.add(shape.list())?;
    }
    Ok(least.into_text())
}

// Texts of the phases of an object, and the least text of all.
const OBJECTS: &[(&[&str], &str)] = &[
    (&["153", "263"], "153"),
    (&["1yzyzyzyzyzx1", "zz1yzyzyzyzyzx1"], "1yzyzyzyzyzx1"),
];

#[test]
fn texts_of_lifewiki(rt: HostRuntime) -> Result<(), Fail> {
    for (texts, least) in OBJECTS {
        assert!(rt; least_of(&rt, rt.alloc(), texts)?.as_slice() == least.as_bytes());
    }
    Ok(())
}
