//! The generation since which two sets that recur have been apart.
ghost use Rattle.std.specs.Prelude.{◌≡◌, ◌+◌, ◌-◌, ◌/◌, ◌%◌, ◌≤◌, ◌^◌, ◌↔◌, IfNone, IfSome, IsTrue};
ghost use Rattle.life_model.specs.Cell.{opposite, plus};
ghost use Rattle.life_model.specs.Evolution.{generation};
ghost use Rattle.life_model.specs.Generation.{Generation};
ghost use Rattle.life_objects.specs.Apart.{AreApart, AreApartForEver};
ghost use Rattle.life_objects.specs.Drift.{multiple_of};
ghost use Rattle.life_orbit.specs.Course.{IsCourse};
ghost use Rattle.life_orbit.specs.Passing.{AreApartBetween};
ghost use Rattle.life_orbit.specs.Past.{AreApartSince, IsPast};
ghost use Rattle.life_orbit.specs.Reach.{IsReach};

use crate::ago::{phase_ago, shift_since};
use crate::hull::are_far;
use crate::lanes::Span;
use crate::near::are_clear;
use crate::orbit::Orbit;
use crate::periods::rounds_together;
use crate::shift::repeated;
use crate::watch::rounds_near;

/// The difference of two moves, the second less the first.
fn further(here: (i128, i128), there: (i128, i128)) -> (i128, i128)
    requires reach { IsReach (2 ^ 64) here }
    requires other_reach { IsReach (2 ^ 64) there }
    ensures value { result ≡ plus (opposite here) (opposite (opposite there)) }
    ensures reach { IsReach (2 ^ 126) result }
{
    (there.0 - here.0, there.1 - here.1)
}

/// True if two sets were apart `ago` generations ago.
fn were_apart(orbit: &Orbit, other: &Orbit, ago: u32) -> bool
    requires rule { orbit.now.rule ≡ other.now.rule }
    requires ago { 1 ≤ ago }
    ensures { (P Q : Generation) → IsPast ago orbit.now P → IsPast ago other.now Q →
        IsTrue result ↔ AreApart P Q }
{
    let by = further(shift_since(orbit, ago), shift_since(other, ago));
    if are_far(orbit.hull(), by, other.hull()) {
        return true;
    }
    are_clear(
        phase_ago(orbit, ago).as_slice(),
        by,
        phase_ago(other, ago).as_slice(),
    )
}

/// The reverse of a move.
fn turned(by: (i128, i128)) -> (i128, i128)
    requires { IsReach (2 ^ 49) by }
    ensures value { result ≡ opposite by }
    ensures reach { IsReach (2 ^ 49) result }
{
    (-by.0, -by.1)
}

/// True if two moves are the same.
fn are_same(by: (i128, i128), other_by: (i128, i128)) -> bool
    ensures { IsTrue result ↔ (by ≡ other_by) }
{
    by == other_by
}

/// The numbers of generations ago at which two sets of different velocities may have been near: more than `from`, and no more
/// than `until`. Sets of one velocity are apart at all times or at none, so they have no such numbers.
fn watch_back(orbit: &Orbit, other: &Orbit, age: u32) -> Option<Span>
    requires rule { orbit.now.rule ≡ other.now.rule }
    ensures recent { IfSome result (λ span. (P Q : Generation) → IsPast age orbit.now P →
        IsPast age other.now Q → AreApartBetween orbit.now.rule (age - span.from) age P Q) }
    ensures early { IfSome result (λ span. (P Q : Generation) → IsPast age orbit.now P →
        IsPast age other.now Q → AreApartBetween orbit.now.rule 0 (age - span.until) P Q) }
    ensures from { IfSome result (λ span. span.from ≤ age) }
    ensures until { IfSome result (λ span. span.until ≤ age) }
    ensures still { IfNone result (AreApartForEver orbit.now.rule orbit.now.set other.now.set →
        (P Q : Generation) → IsPast age orbit.now P → IsPast age other.now Q →
        AreApartForEver orbit.now.rule P Q) }
{
    let period = orbit.period();
    let (rounds, other_rounds) = rounds_together(period, other.period());
    let by = repeated(rounds as u128, orbit.displacement());
    let other_by = repeated(other_rounds as u128, other.displacement());
    if are_same(by, other_by) {
        return None;
    }
    let near = rounds_near(orbit.hull(), turned(by), other.hull(), turned(other_by));
    let round = rounds as u128 * period as u128;
    Some(Span {
        from: (near.from * round).min(age as u128),
        until: (near.until * round).min(age as u128),
    })
}

impl Orbit {
    /// The first generation from which two sets are apart for ever, where they are apart for ever at this age and both have
    /// recurred like this before.
    pub fn apart_since(&self, other: &Orbit, age: u32) -> u32
        requires rule { self.now.rule ≡ other.now.rule }
        requires apart { AreApartForEver self.now.rule self.now.set other.now.set }
        ensures since { (P Q : Generation) → IsPast age self.now P → IsPast age other.now Q →
            AreApartSince self.now.rule P Q result }
        ensures within { result ≤ age }
    {
        let Some(span) = watch_back(self, other, age) else {
            return 0;
        };
        for near in span.from as u32..span.until as u32 {
            if !were_apart(self, other, near + 1) {
                return age - near;
            }
        }
        0
    }
}
