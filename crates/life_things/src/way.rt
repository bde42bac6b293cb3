//! The ways of things.
ghost use Rattle.std.specs.Prelude.{◌≡◌, ◌↔◌, All, IsTrue};
ghost use Rattle.life_growth.specs.Meeting.Meeting as meetings;
ghost use Rattle.life_things.specs.Lattice.Short.{IsStride, IsWithin, way_limit};
ghost use Rattle.life_things.specs.Ways.{IsFit, way_of, ways_of};

use crate::lattice::Step;

/// The greatest number of generations that a way may take, and the greatest move along an axis.
pub const WAY_LIMIT: u32 = 10_000;

/// The number of generations after which a thing recurs, and its displacement then.
#[derive(Clone, Copy)]
pub struct Way {
    pub generations: u32,
    pub by: (i32, i32),
}

/// The ways of a thing: none, one or two.
#[derive(Clone, Copy)]
pub enum Ways {
    Never,
    Once(Way),
    Twice(Way, Way),
}

/// True if a way may go this far along an axis.
fn is_short(place: i32) -> bool
    ensures { IsTrue result ↔ IsWithin way_limit place }
{
    if place > 10_000 {
        return false;
    }
    if place < -10_000 {
        return false;
    }
    true
}

/// True if a way takes from 1 to `WAY_LIMIT` generations, and goes no further than that along an axis.
fn is_fit(way: Way) -> bool
    ensures { IsTrue result ↔ IsFit (way_of way) }
{
    if way.generations == 0 {
        return false;
    }
    if way.generations > WAY_LIMIT {
        return false;
    }
    if !is_short(way.by.0) {
        return false;
    }
    is_short(way.by.1)
}

/// True if each of the ways takes from 1 to `WAY_LIMIT` generations, and goes no further than that along an axis.
pub fn are_fit(ways: Ways) -> bool
    ensures { IsTrue result ↔ All IsFit (ways_of ways) }
{
    match ways {
        Ways::Never => true,
        Ways::Once(way) => is_fit(way),
        Ways::Twice(way, other) => {
            if !is_fit(way) {
                return false;
            }
            is_fit(other)
        }
    }
}

/// A way as a step.
pub fn step_of(way: Way) -> Step
    requires { IsFit (way_of way) }
    ensures value { result ≡ meetings.step_of (way_of way) }
    ensures stride { IsStride result }
{
    (
        way.generations as i128,
        (way.by.0 as i128, way.by.1 as i128),
    )
}

/// A way as a step back.
pub fn step_back(way: Way) -> Step
    requires { IsFit (way_of way) }
    ensures value { result ≡ meetings.step_back (way_of way) }
    ensures stride { IsStride result }
{
    (
        -(way.generations as i128),
        (-(way.by.0 as i128), -(way.by.1 as i128)),
    )
}
