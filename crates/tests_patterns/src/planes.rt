//! Planes of each kind: their calls, a cell that grows as fast as it can, and patterns that recur.

use life_answer::{Finding, Outcome};
use life_board::Board;
use life_cells::{CellList, Rule};
use life_find::{BOUND_LIMIT, find, find_limited};
use life_plane::{AGE_LIMIT, ListPlane, Plane, Unobserved};
use life_text::read_rle;
use life_tile::TilePlane;
use std::alloc::{AllocError, Global};
use std::process::Abort;
use std::test::Fail;

const SPREADING: &[u8] = b"B1/S012345678";

const PI: &[u8] = b"x = 3, y = 3\n3o$obo$obo!";

// A glider that moves to the right and down, across the corner of four tiles.
const GLIDER: &[(i32, i32)] = &[(63, 62), (64, 63), (62, 64), (63, 64), (64, 64)];

// The glider after 200 generations.
const LATER: &[(i32, i32)] = &[(113, 112), (114, 113), (112, 114), (113, 114), (114, 114)];

/// The plane of these cells after `steps` generations.
fn after<P: Plane>(
    rt: &impl Abort,
    alloc: Global,
    cells: &[(i32, i32)],
    rule: &Rule,
    steps: u32,
) -> Result<P, Fail> {
    let list = CellList::of(alloc, cells)?;
    assert!(rt; list.fits());
    let mut plane = P::from_cells(alloc, &list)?;
    for _ in 0..steps {
        assert!(rt; plane.age() < AGE_LIMIT);
        plane.step(rule)?;
    }
    Ok(plane)
}

// A new plane with the cells and the age of a plane.
fn begun_again<P: Plane>(rt: &impl Abort, alloc: Global, walked: &P) -> Result<P, AllocError> {
    let list = walked.cells()?;
    let age = walked.age();
    assert!(rt; age <= AGE_LIMIT);
    P::at_age(alloc, &list, age)
}

fn calls_answer<P: Plane>(rt: &impl Abort, alloc: Global) -> Result<(), Fail> {
    let first: P = after(rt, alloc, GLIDER, &Rule::life(), 0)?;
    let plane: P = after(rt, alloc, GLIDER, &Rule::life(), 200)?;
    assert!(rt; plane.population() == 5 && plane.span()? == (1, 2));
    let list = first.cells()?;
    assert!(rt; list.as_slice() == GLIDER);
    assert!(rt; plane.offset_from(&list)? == Some((50, 50)));
    assert!(rt; plane.offset_from_plane(&first)? == Some((50, 50)));
    let again = begun_again(rt, alloc, &plane)?.copy()?;
    assert!(rt; again.cells_in(list)?.as_slice() == LATER && again.age() == 200);
    Ok(())
}

// One cell, under the rule by which a cell with one neighbour is born and none dies, after 70 generations.
fn a_cell_grows<P: Plane>(rt: &impl Abort, alloc: Global) -> Result<(), Fail> {
    let rule = Rule::parse(SPREADING)?;
    let plane: P = after(rt, alloc, CELL, &rule, 70)?;
    let mut corners = 0_u32;
    for (x, y) in plane.cells()?.as_slice() {
        assert!(rt; -70 <= *x && *x <= 70 && -70 <= *y && *y <= 70);
        if x.unsigned_abs() == 70 && y.unsigned_abs() == 70 {
            corners = corners.saturating_add(1);
        }
    }
    assert!(rt; corners == 4);
    Ok(())
}

const CELL: &[(i32, i32)] = &[(0, 0)];

/// Onset, period, displacement and code.
type Settled = (u32, u32, (i32, i32), &'static [u8]);

/// A pattern, a bound, the population, and the onset, period, displacement and code with which it settles within the bound, if
/// it does.
type Example = (&'static [u8], u32, u64, Option<Settled>);

const EXAMPLES: &[Example] = &[
    // a blinker
    (b"x = 3, y = 1\n3o!", 2, 3, Some((0, 2, (0, 0), b"xp2_7"))),
    // a pentadecathlon
    (
        b"x = 3, y = 10\nbo$bo$obo$bo$bo$bo$bo$obo$bo$bo!",
        15,
        12,
        Some((0, 15, (0, 0), b"xp15_4r4z4r4")),
    ),
    // a glider, which needs a bound of its period
    (
        b"x = 3, y = 3\nbo$2bo$3o!",
        4,
        5,
        Some((0, 4, (1, 1), b"xq4_153")),
    ),
    (b"x = 3, y = 3\nbo$2bo$3o!", 3, 5, None),
    // a lightweight spaceship
    (
        b"x = 5, y = 4\nbo2bo$o$o3bo$4o!",
        10,
        9,
        Some((0, 4, (-2, 0), b"xq4_6frc")),
    ),
    // a row that becomes a beehive
    (b"x = 4, y = 1\n4o!", 3, 4, Some((2, 1, (0, 0), b"xs6_696"))),
    // no cell
    (b"x = 0, y = 0\n!", 1, 0, Some((0, 1, (0, 0), b"xs0_0"))),
    // a spaceship of B2/S
    (
        b"x = 2, y = 4, rule = B2/S\nbo$o$o$bo!",
        10,
        4,
        Some((0, 1, (-1, 0), b"xq1_69")),
    ),
];

// True where a finding has this population and settles with these facts, or where there are none, doesn't settle.
fn is_found(finding: &Finding, population: u64, settled: Option<Settled>) -> bool {
    let found = match &finding.outcome {
        Outcome::Recurs {
            onset,
            period,
            dx,
            dy,
            code,
        } => Some((*onset, *period, (*dx, *dy), code.as_slice())),
        _ => None,
    };
    finding.population == population && found == settled
}

fn patterns_come_again<P: Plane>(rt: &impl Abort, alloc: Global) -> Result<(), Fail> {
    for (text, bound, population, settled) in EXAMPLES {
        assert!(rt; 1 <= *bound && *bound <= BOUND_LIMIT);
        let pattern = read_rle(alloc, text)?;
        let finding = find::<P>(alloc, &pattern, *bound)?;
        assert!(rt; is_found(&finding, *population, *settled));
    }
    Ok(())
}

// The pi-heptomino, whose greatest generation is the 115th, of 201 cells.
fn a_pattern_is_too_large<P: Plane>(rt: &impl Abort, alloc: Global) -> Result<(), Fail> {
    let pattern = read_rle(alloc, PI)?;
    let finding = find_limited::<P, _>(alloc, &Unobserved, &pattern, BOUND_LIMIT, Some(200))?;
    assert!(rt; matches!(&finding.outcome, Outcome::Large { generation: 115 }));
    Ok(())
}

#[test]
fn calls_of_planes_answer(rt: HostRuntime) -> Result<(), Fail> {
    calls_answer::<ListPlane>(&rt, rt.alloc())?;
    calls_answer::<TilePlane>(&rt, rt.alloc())?;
    calls_answer::<Board>(&rt, rt.alloc())
}

#[test]
fn a_cell_grows_on_both_planes(rt: HostRuntime) -> Result<(), Fail> {
    a_cell_grows::<ListPlane>(&rt, rt.alloc())?;
    a_cell_grows::<TilePlane>(&rt, rt.alloc())
}

#[test]
fn patterns_come_again_on_both_planes(rt: HostRuntime) -> Result<(), Fail> {
    patterns_come_again::<ListPlane>(&rt, rt.alloc())?;
    patterns_come_again::<TilePlane>(&rt, rt.alloc())
}

#[test]
fn a_pattern_is_too_large_on_both_planes(rt: HostRuntime) -> Result<(), Fail> {
    a_pattern_is_too_large::<ListPlane>(&rt, rt.alloc())?;
    a_pattern_is_too_large::<TilePlane>(&rt, rt.alloc())
}

#[test]
fn the_tiles_behind_a_glider_are_dropped(rt: HostRuntime) -> Result<(), Fail> {
    let plane: TilePlane = after(&rt, rt.alloc(), GLIDER, &Rule::life(), 6000)?;
    assert!(rt; plane.tiles() < 45 && plane.population() == 5);
    Ok(())
}
