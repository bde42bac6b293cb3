//! The sets that patterns fall apart into when they are split as finely as possible.

use crate::beginnings::{BLOCK, HIT, generation_on};
use life_classes::{Class, classes, classes_of, first_classes, hold_together, is_undivided, union};
use life_islands::numbers;
use life_plane::{ListPlane, Plane};
use life_text::read_rle;
use life_tile::TilePlane;
use std::alloc::Global;
use std::test::Fail;

/// The number of cells of a class at first, and at last.
type Sizes = (usize, usize);

fn sizes_of(alloc: Global, classes: &[Class]) -> Result<Vec<Sizes>, Fail> {
    let mut sizes = Vec::new(alloc);
    for class in classes {
        sizes.push((class.first.len(), class.last.len()))?;
    }
    sizes.sort()?;
    Ok(sizes)
}

const APART: &[Sizes] = &[(3, 3), (4, 4), (5, 5)];

const TOGETHER: &[Sizes] = &[(3, 3), (9, 91)];

#[test]
fn patterns_have_their_classes(rt: HostRuntime) -> Result<(), Fail> {
    let alloc = rt.alloc();
    let pattern = read_rle(alloc, HIT)?;
    let rule = pattern.rule();
    let list: ListPlane = generation_on(&rt, alloc, &pattern, 0)?;
    let tiles: TilePlane = generation_on(&rt, alloc, &pattern, 0)?;
    assert!(rt; tiles.age() == 0 && list.age() == 0);
    let first = first_classes(alloc, pattern.cells().as_slice())?;
    assert!(rt; sizes_of(alloc, &first)?.as_slice() == APART);
    let early = classes_of(alloc, &list, &rule, 70)?;
    assert!(rt; sizes_of(alloc, &early)?.as_slice() == APART);
    assert!(rt; !is_undivided(alloc, list, &rule, 120)?);
    let later = classes(alloc, tiles, &rule, 120)?;
    assert!(rt; sizes_of(alloc, &later)?.as_slice() == TOGETHER);
    Ok(())
}

#[test]
fn cells_are_put_together(rt: HostRuntime) -> Result<(), Fail> {
    let alloc = rt.alloc();
    let block = read_rle(alloc, BLOCK)?;
    let others = read_rle(alloc, HIT)?;
    assert!(rt; hold_together(alloc, block.cells())? && !hold_together(alloc, others.cells())?);
    assert!(rt; union(alloc, block.cells(), others.cells())?.len() == 15);
    assert!(rt; numbers(alloc, 4)?.len() == 4);
    Ok(())
}
