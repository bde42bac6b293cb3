//! Patterns of Life that end as one object, and so recur as it does, and others, which do not.

use crate::beginnings::GLIDER;
use life_answer::{Answer, Outcome};
use life_census::answer;
use life_plane::Unobserved;
use std::alloc::Global;
use std::test::Fail;

const BLINKER: &[u8] = b"x = 3, y = 1\n3o!";

// Eight cells that are a beehive from generation 86 on.
const SLOW: &[u8] = b"x = 5, y = 3\no3bo$ob2o$3o!";

// Two blocks near one another, which stay as they are.
const TWO_BLOCKS: &[u8] = b"x = 5, y = 2\n2ob2o$2ob2o!";

// A cell, which dies.
const CELL: &[u8] = b"x = 1, y = 1\no!";

// The outcome of a text within 200 generations.
fn outcome_of(alloc: Global, text: &[u8], near: bool) -> Result<Outcome, Fail> {
    match answer(alloc, &Unobserved, text, 200, None, near, 10)? {
        Answer::Found { finding, .. } => Ok(finding.outcome),
        Answer::Refused(_) => Err("refused".into()),
    }
}

/// Texts, whether objects near one another count as one, and the onset, the period, the displacement and the code of the object
/// that is left.
const ALONE: &[(&[u8], bool, u32, u32, (i32, i32), &[u8])] = &[
    (GLIDER, false, 0, 4, (1, 1), b"xq4_153"),
    (GLIDER, true, 0, 4, (1, 1), b"xq4_153"),
    (BLINKER, false, 0, 2, (0, 0), b"xp2_7"),
    (SLOW, false, 86, 1, (0, 0), b"xs6_696"),
    (TWO_BLOCKS, true, 0, 1, (0, 0), b"xs8_rr"),
];

#[test]
fn what_ends_as_one_object_recurs(rt: HostRuntime) -> Result<(), Fail> {
    for (text, near, first, after, way, name) in ALONE {
        let found = outcome_of(rt.alloc(), text, *near)?;
        let is = match &found {
            Outcome::Recurs {
                onset,
                period,
                dx,
                dy,
                code,
            } => {
                onset == first && period == after && (*dx, *dy) == *way && code.as_slice() == *name
            }
            _ => false,
        };
        assert!(rt; is, "{first}");
    }
    Ok(())
}

/// Texts, the onset, and the number of kinds of objects and of objects that are left.
const OTHERS: &[(&[u8], u32, usize, u64)] = &[(TWO_BLOCKS, 0, 1, 2), (CELL, 1, 0, 0)];

#[test]
fn what_ends_as_none_or_several_is_ash(rt: HostRuntime) -> Result<(), Fail> {
    for (text, first, kinds, objects) in OTHERS {
        let found = outcome_of(rt.alloc(), text, false)?;
        let is = match &found {
            Outcome::Ash { onset, parts } => {
                onset == first && parts.as_slice().len() == *kinds && parts.count() == *objects
            }
            _ => false,
        };
        assert!(rt; is, "{first}");
    }
    Ok(())
}
