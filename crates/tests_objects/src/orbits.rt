//! Sets that recur, and their independent parts.

use crate::beginnings::GLIDER;
use life_apart::are_together;
use life_ash::Known;
use life_board::Board;
use life_cells::CellList;
use life_census::code_of;
use life_islands::{independent_parts, part_orbits};
use life_orbit::Orbit;
use life_text::read_rle;
use std::test::Fail;

const BLINKER_CODE: &[u8] = b"xp2_7";

const BLOCK_CODE: &[u8] = b"xs4_33";

// A glider one cell further to the right and down.
const MOVED: &[(i32, i32)] = &[(2, 1), (3, 2), (1, 3), (2, 3), (3, 3)];

// A glider one cell further to the left and up.
const EARLIER: &[(i32, i32)] = &[(0, -1), (1, 0), (-1, 1), (0, 1), (1, 1)];

#[test]
fn a_glider_has_an_orbit(rt: HostRuntime) -> Result<(), Fail> {
    let alloc = rt.alloc();
    let pattern = read_rle(alloc, GLIDER)?;
    let cells = pattern.cells();
    assert!(rt; cells.fits());
    let mut known = Known::new(alloc, &pattern.rule(), 100);
    let orbit = known
        .orbit_of::<Board>(alloc, cells, 10)?
        .ok_or("no orbit")?;
    assert!(rt; orbit.period() == 4 && orbit.displacement() == (1, 1));
    let moved = CellList::of(alloc, MOVED)?;
    assert!(rt; orbit.moved_to(alloc, &moved)?.is_some());
    let earlier = orbit.set_ago(alloc, 4)?.ok_or("no place")?;
    assert!(rt; earlier.as_slice() == EARLIER);
    Ok(())
}

// A traffic light beside a block.
const LIGHT: &[u8] = b"x = 13, y = 9\n4bo$4bo$4bo2$3o3b3o2b2o$11b2o$4bo$4bo$4bo!";

#[test]
fn a_traffic_light_is_four_blinkers(rt: HostRuntime) -> Result<(), Fail> {
    let alloc = rt.alloc();
    let pattern = read_rle(alloc, LIGHT)?;
    let cells = pattern.cells();
    assert!(rt; cells.fits());
    let orbit = Orbit::of::<Board>(alloc, &pattern.rule(), cells, 100)?.ok_or("no orbit")?;
    assert!(rt; orbit.set().fits());
    assert!(rt; independent_parts(alloc, &orbit)?.len() == 5);
    let parts = part_orbits::<Board>(alloc, &orbit)?.ok_or("no orbits")?;
    assert!(rt; are_together(alloc, &parts, cells)?);
    for part in &parts {
        assert!(rt; part.set().fits());
        let code = code_of(alloc, part)?;
        assert!(rt; code.as_slice() == BLINKER_CODE || code.as_slice() == BLOCK_CODE);
    }
    Ok(())
}
