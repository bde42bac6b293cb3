//! The places reached by no step, and by one step made any number of times.
ghost use Rattle.std.specs.Prelude.{◌≡◌, ◌↔◌, ◌≤◌, ◌^◌, IsTrue, [], ◌∷◌};
ghost use Rattle.life_growth.specs.Meeting.Sums.{and_then, times};
ghost use Rattle.life_things.specs.Clear.{IsClear, StaysClear};
ghost use Rattle.life_things.specs.Fields.{IsFieldOf};
ghost use Rattle.life_things.specs.Lattice.Short.{IsShort, IsStride, one_start};

use crate::field::{Field, has_place};
use crate::lattice::{Step, moved, rounds_to_none};
use life_cells::CellList;
use life_orbit::are_clear;

/// True if no cell of a set, moved, is near one of the other.
fn is_clear(one: &CellList, by: (i128, i128), other: &CellList, field: Field) -> bool
    requires { IsFieldOf field one.now other.now }
    ensures { IsTrue result ↔ IsClear one.now by other.now }
{
    if !has_place(field, by) {
        return true;
    }
    are_clear(one.as_slice(), by, other.as_slice())
}

/// True if a set that is only at the start is not near the other there.
pub fn no_way(one: &CellList, other: &CellList, field: Field, start: Step) -> bool
    requires { IsFieldOf field one.now other.now }
    ensures { IsTrue result ↔ StaysClear one.now other.now start [] }
{
    if start.0 != 0 {
        return true;
    }
    is_clear(one, start.1, other, field)
}

/// True if a set that has gone from a start by `count` steps is not near the other.
fn is_clear_after(
    one: &CellList,
    other: &CellList,
    field: Field,
    start: Step,
    count: u128,
    step: Step,
) -> bool
    requires start { IsShort one_start start }
    requires count { count ≤ 2 ^ 126 }
    requires field { IsFieldOf field one.now other.now }
    ensures { IsTrue result ↔ IsClear one.now (and_then start (times count step)).1 other.now }
{
    match moved(start.1.0, count, step.1.0) {
        None => true,
        Some(column) => match moved(start.1.1, count, step.1.1) {
            None => true,
            Some(row) => is_clear(one, (column, row), other, field),
        },
    }
}

/// True if a set is never near the other, from the start on by one step.
pub fn one_way(one: &CellList, other: &CellList, field: Field, start: Step, step: Step) -> bool
    requires start { IsShort one_start start }
    requires step { IsStride step }
    requires field { IsFieldOf field one.now other.now }
    ensures { IsTrue result ↔ StaysClear one.now other.now start (step ∷ []) }
{
    match rounds_to_none(start.0, step.0) {
        None => true,
        Some(count) => is_clear_after(one, other, field, start, count, step),
    }
}
