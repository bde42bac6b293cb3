//! Findings about texts, early or late, and pairs of sets of cells that become one object or not.

use life_answer::{Answer, Outcome};
use life_cells::{CellList, Rule};
use life_find::{answer, answer_soon, same_object};
use life_plane::Unobserved;
use std::alloc::Global;
use std::process::Abort;
use std::test::Fail;

const REFUSED: &[u8] = b"x = 3, y = 3\n3o1 2b!";

const ROW_OF_THREE: &[u8] = b"x = 3, y = 1\n3o!";

// The pi-heptomino, which settles in generation 173.
const PI: &[u8] = b"x = 3, y = 3\n3o$obo$obo!";

#[test]
fn texts_are_answered(rt: HostRuntime) -> Result<(), Fail> {
    let found = answer(rt.alloc(), &Unobserved, PI, 175, None)?;
    assert!(rt; is_settled(&found, 173));
    let refused = answer(rt.alloc(), &Unobserved, REFUSED, 1, None)?;
    assert!(rt; matches!(refused, Answer::Refused(7)));
    let open = answer_soon(rt.alloc(), PI, 175, Some(201))?;
    assert!(rt; open.is_none());
    let soon = answer_soon(rt.alloc(), ROW_OF_THREE, 175, Some(201))?;
    assert!(rt; matches!(&soon, Some(found) if is_settled(found, 0)));
    Ok(())
}

// True where a pattern settles in this generation.
fn is_settled(found: &Answer, generation: u32) -> bool {
    match found {
        Answer::Found { finding, .. } => match &finding.outcome {
            Outcome::Recurs { onset, .. } => *onset == generation,
            _ => false,
        },
        Answer::Refused(_) => false,
    }
}

/// The coordinates of live cells.
type Cells = &'static [(i32, i32)];

const GLIDER: Cells = &[(1, 0), (2, 1), (0, 2), (1, 2), (2, 2)];

// A glider that moves to the left and down, two generations later.
const MIRRORED_GLIDER: Cells = &[(5, 1), (5, 2), (7, 2), (5, 3), (6, 3)];

const BLINKER: Cells = &[(0, 0), (1, 0), (2, 0)];

const METHUSELAH: Cells = &[(1, 0), (2, 0), (0, 1), (1, 1), (1, 2)];

// Two sets, and whether they become one object within ten generations, if both settle.
const PAIRS: &[(Cells, Cells, Option<bool>)] = &[
    (GLIDER, MIRRORED_GLIDER, Some(true)),
    (GLIDER, BLINKER, Some(false)),
    (GLIDER, METHUSELAH, None),
];

fn are_one(
    rt: &impl Abort,
    alloc: Global,
    first: Cells,
    second: Cells,
) -> Result<Option<bool>, Fail> {
    let first = CellList::of(alloc, first)?;
    let second = CellList::of(alloc, second)?;
    assert!(rt; first.fits() && second.fits());
    Ok(same_object(alloc, &Rule::life(), &first, &second, 10)?)
}

#[test]
fn objects_are_told_apart_however_they_lie(rt: HostRuntime) -> Result<(), Fail> {
    for (first, second, known) in PAIRS {
        assert!(rt; are_one(&rt, rt.alloc(), first, second)? == *known);
    }
    Ok(())
}
