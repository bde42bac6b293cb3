//! The parts of guns and switch engines that recur, and those that leave them; patterns that fall apart, and patterns that are
//! found to have no engine.

use crate::beginnings::{ACORN, BLOCK, GLIDER, GUN, PENTOMINO, generation_on};
use life_board::Board;
use life_census::rises_steadily;
use life_growing::{are_no_engine, growth_of, settled};
use life_plane::{ListPlane, Plane};
use life_text::read_rle;
use life_tracks::{Film, tracks};
use std::alloc::Global;
use std::process::Abort;
use std::test::Fail;

#[test]
fn a_gun_comes_back(rt: HostRuntime) -> Result<(), Fail> {
    let alloc = rt.alloc();
    let pattern = read_rle(alloc, GUN)?;
    let plane: Board = generation_on(&rt, alloc, &pattern, 100)?;
    assert!(rt; plane.age() <= 100_000);
    let film = Film::of(alloc, &plane, &pattern.rule(), 60)?;
    assert!(rt; film.parents(0).len() == film.classes(1).len());
    let found = tracks(alloc, &film)?;
    assert!(rt; found.len() == 1);
    for track in &found {
        assert!(rt; track.period() == 30 && track.displacement() == (0, 0));
    }
    Ok(())
}

// The gun in generation 100, and a block beside the path of its gliders.
const GUN_AND_BLOCK: &[u8] = b"x = 76, y = 42
64bo$62bobo$52b2o6b2o12b2o$51bo3bo4b2o12b2o$40b2o8bo5bo3b2o$40b2o8bo3b
ob2o4bobo$50bo5bo7bo$51bo3bo$52b2o32$10b2o$10b2o!
";

#[test]
fn a_gun_emits_a_glider_and_a_block_is_debris(rt: HostRuntime) -> Result<(), Fail> {
    let alloc = rt.alloc();
    let pattern = read_rle(alloc, GUN_AND_BLOCK)?;
    let plane: Board = generation_on(&rt, alloc, &pattern, 100)?;
    assert!(rt; plane.age() <= 100_000);
    let growth = growth_of(alloc, &plane, &pattern.rule(), 100, 100)?.ok_or("no growth")?;
    assert!(rt; growth.engines().len() == 1);
    for engine in growth.engines() {
        let mut emitted = 0_usize;
        for left in engine.lefts() {
            emitted = emitted.saturating_add(left.parts().len());
        }
        assert!(rt; emitted == 1 && engine.things(alloc)?.len() >= 34);
    }
    Ok(())
}

#[test]
fn a_glider_has_four_things(rt: HostRuntime) -> Result<(), Fail> {
    let alloc = rt.alloc();
    let pattern = read_rle(alloc, GLIDER)?;
    let cells = pattern.cells();
    assert!(rt; cells.fits());
    let found = settled::<ListPlane>(alloc, &pattern.rule(), cells, 0, 4)?;
    let it = found.ok_or("no ash")?;
    assert!(rt; it.early().is_empty() && it.parts().len() == 1);
    assert!(rt; it.things(alloc, 5, (10, 20), None)?.len() == 4);
    Ok(())
}

// The pentomino between two blocks.
const BETWEEN: &[u8] = b"x = 402, y = 3\n2o199b2o197b2o$2o198b2o198b2o$201bo!";

/// Patterns, a generation, and a bound within which it is found not to be an engine, since it recurs, or has no more cells
/// later.
const NO_ENGINES: &[(&[u8], u32, u32)] = &[
    (BLOCK, 0, 20),
    (GLIDER, 0, 20),
    (ACORN, 100, 50),
    (BETWEEN, 0, 100),
];

#[test]
fn what_is_no_engine_is_refused(rt: HostRuntime) -> Result<(), Fail> {
    for (text, first, bound) in NO_ENGINES {
        assert!(rt; is_refused(&rt, rt.alloc(), text, *first, *bound)?);
    }
    Ok(())
}

// True where a pattern's generation is found not to be an engine within the bound.
fn is_refused(
    rt: &impl Abort,
    alloc: Global,
    text: &[u8],
    first: u32,
    bound: u32,
) -> Result<bool, Fail> {
    let pattern = read_rle(alloc, text)?;
    let plane: Board = generation_on(rt, alloc, &pattern, first)?;
    let age = plane.age();
    assert!(rt; age <= 100_000);
    assert!(rt; 1 <= bound && bound <= 10_000);
    Ok(are_no_engine::<Board>(alloc, &pattern.rule(), &plane.cells()?, age, bound)?)
}

/// Patterns, the number of generations from generation 200 on over which their population is observed, and whether it seems to
/// rise steadily. A period of more than a third of the generations is not found.
const TRENDS: &[(&[u8], u32, bool)] = &[
    (GUN, 128, true),
    (GUN, 90, true),
    (GUN, 89, false),
    (BLOCK, 128, false),
    (PENTOMINO, 128, false),
];

#[test]
fn populations_rise_steadily_or_not(rt: HostRuntime) -> Result<(), Fail> {
    for (text, length, expected) in TRENDS {
        let pattern = read_rle(rt.alloc(), text)?;
        let plane: Board = generation_on(&rt, rt.alloc(), &pattern, 200)?;
        assert!(rt; plane.age() <= 100_000 && *length <= 100_000);
        let rises = rises_steadily(rt.alloc(), &plane, &pattern.rule(), *length)?;
        assert!(rt; rises == *expected, "{length}");
    }
    Ok(())
}
