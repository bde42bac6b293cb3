//! Deciding whether two sets that recur stay apart.
ghost use Rattle.std.specs.Prelude.{◌≡◌, ◌%◌, ◌<◌, ◌^◌, ◌↔◌, IsTrue};
ghost use Rattle.life_model.specs.Evolution.{generation};
ghost use Rattle.life_objects.specs.Apart.{AreApart, AreApartForEver};
ghost use Rattle.life_orbit.specs.Hulls.{IsHullOf};

use crate::hull::{Hull, are_far};
use crate::near::are_clear;
use crate::orbit::Orbit;
use crate::shift::offset_at;
use crate::watch::watch;
use life_cells::CellList;

/// The phase that a set has after `time` generations.
fn phase_at(orbit: &Orbit, time: u128) -> &CellList
    ensures { result.now ≡ generation orbit.now.rule orbit.now.set (time % orbit.now.period) }
{
    orbit.phase((time % orbit.period() as u128) as u32)
}

/// True if two sets are apart after `time` generations.
fn is_apart_at(orbit: &Orbit, hull: Hull, other: &Orbit, other_hull: Hull, time: u128) -> bool
    requires rule { orbit.now.rule ≡ other.now.rule }
    requires hull { IsHullOf hull orbit.now }
    requires other_hull { IsHullOf other_hull other.now }
    requires time { time < 2 ^ 94 }
    ensures { IsTrue result ↔ AreApart (generation orbit.now.rule orbit.now.set time)
        (generation orbit.now.rule other.now.set time) }
{
    let by = offset_at(orbit, other, time);
    if are_far(hull, by, other_hull) {
        return true;
    }
    are_clear(
        phase_at(orbit, time).as_slice(),
        by,
        phase_at(other, time).as_slice(),
    )
}

/// True if two sets stay where they are and their boxes are far from each other.
fn rest_apart(orbit: &Orbit, other: &Orbit) -> bool
    requires { orbit.now.rule ≡ other.now.rule }
    ensures { IsTrue result → AreApartForEver orbit.now.rule orbit.now.set other.now.set }
{
    if orbit.displacement() != (0, 0) {
        return false;
    }
    if other.displacement() != (0, 0) {
        return false;
    }
    are_far(orbit.hull(), (0, 0), other.hull())
}

impl Orbit {
    /// True if the two sets stay apart for ever.
    pub fn is_apart_for_ever_from(&self, other: &Orbit) -> bool
        requires { self.now.rule ≡ other.now.rule }
        ensures { IsTrue result ↔ AreApartForEver self.now.rule self.now.set other.now.set }
    {
        if rest_apart(self, other) {
            return true;
        }
        let hull = self.hull();
        let other_hull = other.hull();
        let span = watch(self, hull, other, other_hull);
        for time in span.from..span.until {
            if !is_apart_at(self, hull, other, other_hull, time) {
                return false;
            }
        }
        true
    }
}
