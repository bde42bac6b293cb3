//! The conclusions from islands that never recur: that cells are not ash, and that they do not grow. A negative answer would
//! satisfy the contracts, but would be expensive.

use crate::beginnings::{ACORN, GLIDER, GUN, generation_on};
use life_board::Board;
use life_plane::{ListPlane, Plane};
use life_strays::{are_no_ash, is_uneven, never_grow, one_never_grows};
use life_text::read_rle;
use std::alloc::Global;
use std::process::Abort;
use std::test::Fail;

/// True where a pattern's generation is found not to be ash within the bound, and true where it is found not to grow.
fn seen<P: Plane>(
    rt: &impl Abort,
    alloc: Global,
    text: &[u8],
    first: u32,
    bound: u32,
) -> Result<(bool, bool), Fail> {
    let pattern = read_rle(alloc, text)?;
    let rule = pattern.rule();
    let plane: P = generation_on(rt, alloc, &pattern, first)?;
    assert!(rt; plane.age() <= 100_000);
    assert!(rt; bound <= 10_000);
    let no_ash = are_no_ash(alloc, &plane, &rule, bound)?;
    let no_growth = never_grow(alloc, &plane, &rule, bound)?;
    assert!(rt; no_growth || !one_never_grows(alloc, &plane, &rule, bound)?);
    Ok((no_ash, no_growth))
}

#[test]
fn what_lives_on_in_disorder_is_refused(rt: HostRuntime) -> Result<(), Fail> {
    assert!(rt; seen::<Board>(&rt, rt.alloc(), ACORN, 100, 50)? == (true, true));
    assert!(rt; seen::<ListPlane>(&rt, rt.alloc(), GLIDER, 3, 20)? == (false, false));
    Ok(())
}

// Its islands recur, and the gliders that it has emitted in the meantime are new.
#[test]
fn a_gun_is_no_ash(rt: HostRuntime) -> Result<(), Fail> {
    assert!(rt; seen::<Board>(&rt, rt.alloc(), GUN, 30, 30)?.0);
    assert!(rt; seen::<Board>(&rt, rt.alloc(), GUN, 100, 100)?.0);
    Ok(())
}

/// The totals before each stretch and after the last one, where the growth is too uneven.
const TOTALS: &[&[u128]] = &[
    // more than twice as many as in the stretch before or after
    &[0, 10, 31],
    &[0, 21, 31],
    // more than half as many again, in two stretches
    &[0, 2, 4, 7, 11],
    // a stretch with none
    &[0, 0, 1],
];

#[test]
fn totals_are_uneven(rt: HostRuntime) {
    for totals in TOTALS {
        assert!(rt; is_uneven(totals));
    }
}
