//! Repeated moves.
ghost use Rattle.std.specs.Prelude.{◌≡◌, ◌*◌, ◌/◌, ◌<◌, ◌^◌};
ghost use Rattle.life_model.specs.Cell.{opposite, plus};
ghost use Rattle.life_objects.specs.Drift.{multiple_of};
ghost use Rattle.life_orbit.specs.Course.{IsCourse};
ghost use Rattle.life_orbit.specs.Reach.{IsReach};

use crate::orbit::Orbit;

/// A move made `count` times.
pub fn repeated(count: u128, by: (i32, i32)) -> (i128, i128)
    requires { count < 2 ^ 94 }
    ensures value { result ≡ multiple_of count by }
    ensures reach { IsReach (count * 2 ^ 31) result }
{
    let count = count as i128;
    (count * by.0 as i128, count * by.1 as i128)
}

/// The displacement of a set after `time` generations, by whole periods.
fn shift_at(orbit: &Orbit, time: u128) -> (i128, i128)
    requires { time < 2 ^ 94 }
    ensures value { result ≡ multiple_of (time / orbit.now.period) orbit.now.displacement }
    ensures reach { IsReach (2 ^ 125) result }
    ensures recurs { IsCourse orbit.now }
{
    repeated(time / orbit.period() as u128, orbit.displacement())
}

/// The displacement of one set less that of the other after `time` generations, by whole periods of each.
pub fn offset_at(orbit: &Orbit, other: &Orbit, time: u128) -> (i128, i128)
    requires { time < 2 ^ 94 }
    ensures value { result ≡ plus (multiple_of (time / orbit.now.period) orbit.now.displacement)
        (opposite (multiple_of (time / other.now.period) other.now.displacement)) }
    ensures reach { IsReach (2 ^ 126) result }
    ensures recurs { IsCourse orbit.now × IsCourse other.now }
{
    let here = shift_at(orbit, time);
    let there = shift_at(other, time);
    (here.0 - there.0, here.1 - there.1)
}
