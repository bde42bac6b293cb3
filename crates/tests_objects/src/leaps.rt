//! The plane that leaps, and generations that are computed by steps and by leaps.

use crate::beginnings::{GLIDER, GUN};
use life_advance::{LeapPlane, Side, generation_of, outgrows};
use life_text::read_rle;
use std::test::Fail;

// The glider after 4,096 generations.
const GLIDER_1024: &[(i32, i32)] = &[
    (1025, 1024),
    (1026, 1025),
    (1024, 1026),
    (1025, 1026),
    (1026, 1026),
];

#[test]
fn a_glider_leaps_where_it_may_work(rt: HostRuntime) -> Result<(), Fail> {
    let gun = read_rle(rt.alloc(), GUN)?;
    let pattern = read_rle(rt.alloc(), GLIDER)?;
    assert!(rt; gun.cells().fits() && pattern.cells().fits());
    let mut plane = LeapPlane::at_age(rt.alloc(), &pattern.rule(), gun.cells(), 0)?;
    plane.put(pattern.cells(), 0)?;
    assert!(rt; plane.age() == 0);
    assert!(rt; plane.leap(12, 0).is_err() && plane.age() == 0);
    plane.leap(11, 1_000_000)?;
    assert!(rt; plane.age() == 2_048);
    plane.collect()?;
    plane.leap(11, 1_000_000)?;
    let cells = plane.cells()?;
    assert!(rt; cells.as_slice() == GLIDER_1024 && plane.age() == 4_096 && !plane.is_half_full());
    Ok(())
}

// The gun is in two leaves, one of columns 0 to 31 and one of columns 32 to 63. The first live cell of each, row by row, is
// found.
#[test]
fn a_gun_grows_to_one_side(rt: HostRuntime) -> Result<(), Fail> {
    let pattern = read_rle(rt.alloc(), GUN)?;
    let rule = pattern.rule();
    let list = pattern.cells();
    assert!(rt; list.fits());
    let mut plane = LeapPlane::at_age(rt.alloc(), &rule, list, 0)?;
    assert!(rt; plane.age() == 0);
    assert!(rt; plane.far_cell(Side::West) == Some((24, 0)));
    assert!(rt; plane.far_cell(Side::East) == Some((34, 2)));
    plane.leap(12, 1_000_000)?;
    let later = plane.cells()?;
    // it never recurs
    assert!(rt; outgrows(rt.alloc(), &rule, list, &later, plane.age(), 1_000_000));
    assert!(rt; generation_of(rt.alloc(), &rule, list, 6_000)?.len() == 36 + 5 * 200);
    Ok(())
}
