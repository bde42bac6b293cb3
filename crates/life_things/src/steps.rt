//! Lists of up to four steps.
ghost use Rattle.std.specs.Prelude.{◌≡◌, ◌++◌, ◌≤◌, All, length, map};
ghost use Rattle.life_growth.specs.Meeting.Meeting as meetings;
ghost use Rattle.life_things.specs.Steps.{AreStrides, list_of};
ghost use Rattle.life_things.specs.Ways.{IsFit, ways_of};

use crate::lattice::Step;
use crate::way::{Ways, step_back, step_of};

/// Up to four steps.
#[derive(Clone, Copy)]
pub enum Steps {
    Zero,
    One(Step),
    Two(Step, Step),
    Three(Step, Step, Step),
    Four(Step, Step, Step, Step),
}

/// The ways of a thing as steps.
pub fn steps_forth(ways: Ways) -> Steps
    requires { All IsFit (ways_of ways) }
    ensures list { list_of result ≡ map meetings.step_of (ways_of ways) }
    ensures few { length (list_of result) ≤ 2 }
    ensures strides { AreStrides result }
{
    match ways {
        Ways::Never => Steps::Zero,
        Ways::Once(way) => Steps::One(step_of(way)),
        Ways::Twice(way, other) => Steps::Two(step_of(way), step_of(other)),
    }
}

/// The ways of a thing as steps back.
pub fn steps_back(ways: Ways) -> Steps
    requires { All IsFit (ways_of ways) }
    ensures list { list_of result ≡ map meetings.step_back (ways_of ways) }
    ensures few { length (list_of result) ≤ 2 }
    ensures strides { AreStrides result }
{
    match ways {
        Ways::Never => Steps::Zero,
        Ways::Once(way) => Steps::One(step_back(way)),
        Ways::Twice(way, other) => Steps::Two(step_back(way), step_back(other)),
    }
}

/// Up to two steps, followed by up to two others.
pub fn joined(first: Steps, second: Steps) -> Steps
    requires first { length (list_of first) ≤ 2 }
    requires second { length (list_of second) ≤ 2 }
    requires strides { AreStrides first }
    requires others { AreStrides second }
    ensures list { list_of result ≡ list_of first ++ list_of second }
    ensures strides { AreStrides result }
{
    match (first, second) {
        (Steps::Zero, _) => second,
        (Steps::One(a), Steps::Zero) => Steps::One(a),
        (Steps::One(a), Steps::One(b)) => Steps::Two(a, b),
        (Steps::One(a), Steps::Two(b, c)) => Steps::Three(a, b, c),
        (Steps::Two(a, b), Steps::Zero) => Steps::Two(a, b),
        (Steps::Two(a, b), Steps::One(c)) => Steps::Three(a, b, c),
        (Steps::Two(a, b), Steps::Two(c, d)) => Steps::Four(a, b, c, d),
        _ => first,
    }
}
