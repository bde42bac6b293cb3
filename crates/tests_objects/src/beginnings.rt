//! Patterns that several tests start from, and their generations on planes.

use life_plane::{AGE_LIMIT, Plane};
use life_text::Pattern;
use std::alloc::Global;
use std::process::Abort;
use std::test::Fail;

/// A block.
pub const BLOCK: &[u8] = b"x = 2, y = 2\n2o$2o!";

/// A glider that moves to the right and down by one cell in four generations.
pub const GLIDER: &[u8] = b"x = 3, y = 3\nbo$2bo$3o!";

/// A blinker, a glider and a block, to which the glider comes near after 75 generations.
pub const HIT: &[u8] = b"x = 203, y = 22\nbo198b3o$2bo$3o18$23b2o$23b2o!";

/// The R-pentomino, which is ash from generation 1,103 on.
pub const PENTOMINO: &[u8] = b"x = 3, y = 3\nb2o$2o$bo!";

/// The acorn, which is ash from generation 5,206 on.
pub const ACORN: &[u8] = b"x = 7, y = 3\nbo$3bo$2o2b3o!";

/// Gosper's glider gun, which has 36 cells and emits a glider of five cells every 30 generations.
pub const GUN: &[u8] = b"x = 36, y = 9
24bo$22bobo$12b2o6b2o12b2o$11bo3bo4b2o12b2o$2o8bo5bo3b2o$2o8bo3bob2o4b
obo$10bo5bo7bo$11bo3bo$12b2o!
";

/// The generation of this age of a pattern.
pub fn generation_on<P: Plane>(
    rt: &impl Abort,
    alloc: Global,
    pattern: &Pattern,
    age: u32,
) -> Result<P, Fail> {
    let rule = pattern.rule();
    let cells = pattern.cells();
    assert!(rt; cells.fits());
    let mut plane = P::from_cells(alloc, cells)?;
    for _ in 0..age {
        assert!(rt; plane.age() < AGE_LIMIT);
        plane.step(&rule)?;
    }
    Ok(plane)
}
