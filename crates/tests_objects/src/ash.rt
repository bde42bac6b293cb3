//! The ash of patterns of Life, on planes of both kinds.

use crate::beginnings::{GUN, HIT, generation_on};
use life_answer::{Answer, Outcome};
use life_ash::{Fate, ash_of, fate};
use life_census::{answer, census};
use life_plane::{ListPlane, Plane, Unobserved};
use life_text::read_rle;
use life_tile::TilePlane;
use std::alloc::Global;
use std::process::Abort;
use std::test::Fail;

const BLOCK_CODE: &[u8] = b"xs4_33";

// A glider that vanishes with a block, and a block far off.
const VANISHING: &[u8] = b"x = 42, y = 22\nbo$2bo$3o37b2o$40b2o17$20b2o$20b2o!";

// True where a block is left, from generation 70 on.
fn is_a_block(outcome: &Outcome) -> bool {
    match outcome {
        Outcome::Recurs {
            onset: 70,
            period: 1,
            dx: 0,
            dy: 0,
            code,
        } => code.as_slice() == BLOCK_CODE,
        _ => false,
    }
}

fn what_is_left_is_counted<P: Plane>(rt: &impl Abort, alloc: Global) -> Result<(), Fail> {
    let pattern = read_rle(alloc, VANISHING)?;
    let rule = pattern.rule();
    let cells = pattern.cells();
    assert!(rt; cells.fits());
    for near in &[false, true] {
        let found = census::<P, Unobserved>(
            alloc,
            &Unobserved,
            &rule,
            cells,
            200,
            None,
            *near,
            10,
        )?;
        assert!(rt; is_a_block(&found.outcome));
    }
    let fate = fate::<P, Unobserved>(alloc, &Unobserved, &rule, cells, 60, None)?;
    // (its end is found after the bound)
    assert!(rt; matches!(fate, Fate::Unresolved { ends: true }));
    let plane: P = generation_on(rt, alloc, &pattern, 70)?;
    assert!(rt; plane.age() == 70);
    let ash = ash_of(alloc, &plane, &rule, 5)?;
    assert!(rt; matches!(&ash, Some(ash) if ash.orbits().len() == 1));
    Ok(())
}

#[test]
fn what_is_left_is_counted_on_both_planes(rt: HostRuntime) -> Result<(), Fail> {
    what_is_left_is_counted::<ListPlane>(&rt, rt.alloc())?;
    what_is_left_is_counted::<TilePlane>(&rt, rt.alloc())
}

#[test]
fn texts_are_answered(rt: HostRuntime) -> Result<(), Fail> {
    for (text, bound, engines) in TEXTS {
        assert!(rt; 1 <= *bound && *bound <= 1_000);
        let found = answer(rt.alloc(), &Unobserved, text, *bound, None, false, *bound)?;
        let is = match &found {
            Answer::Found { finding, .. } => finding.outcome.engines().len() == *engines,
            Answer::Refused(_) => false,
        };
        assert!(rt; is);
    }
    Ok(())
}

/// A text, a bound, and the number of kinds of engines that it has.
const TEXTS: &[(&[u8], u32, usize)] = &[(GUN, 31, 1), (GUN, 30, 0), (HIT, 60, 0)];
