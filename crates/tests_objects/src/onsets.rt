//! Patterns of Life and the onset of their ash.
ghost use Rattle.std.specs.Prelude.{◌≤◌, All};
ghost use Rattle.life_model.specs.Generation as generations;
ghost use Rattle.life_cells.specs.Limits.{IsWithin};

use life_apart::{Trail, onset};
use life_ash::{Known, guessed_parts};
use life_cells::{CellList, Rule};
use life_plane::{ListPlane, Plane};
use life_text::read_rle;
use life_tile::TilePlane;
use std::alloc::{AllocError, Global};
use std::test::Fail;

/// The onset of the ash of some cells, whose generation of this age is ash. A trail is kept from generation 0 on.
fn onset_by<P: Plane>(alloc: Global, cells: &CellList, age: u32) -> Result<Option<u32>, AllocError>
    requires fits { All (IsWithin 0) (generations.cells cells.now) }
    requires age { age ≤ 100000 }
{
    let rule = Rule::life();
    let mut plane = P::from_cells(alloc, cells)?;
    let mut trail = Trail::new(alloc);
    for _ in 0..age {
        trail.note(&plane)?;
        plane.step(&rule)?;
    }
    let mut known = Known::new(alloc, &rule, 100);
    match guessed_parts(alloc, &plane, &mut known, 4)? {
        Some(parts) => Ok(Some(onset::<P>(alloc, &rule, cells, &trail, &parts, age)?)),
        None => Ok(None),
    }
}

// A glider that passes a block, near it up to generation 68, and changes nothing.
const PASSING: &[u8] = b"x = 22, y = 16\nbo$2bo$3o12$20b2o$20b2o!";

#[test]
fn a_glider_that_passes_a_block_has_its_onset(rt: HostRuntime) -> Result<(), Fail> {
    let pattern = read_rle(rt.alloc(), PASSING)?;
    let cells = pattern.cells();
    assert!(rt; cells.fits());
    assert!(rt; onset_by::<ListPlane>(rt.alloc(), cells, 200)? == Some(69));
    assert!(rt; onset_by::<TilePlane>(rt.alloc(), cells, 69)? == Some(69));
    Ok(())
}
