//! The generations in which two sets that recur have to be watched.
ghost use Rattle.std.specs.Prelude.{◌≡◌, ◌*◌, ◌<◌, ◌≤◌, ◌^◌};
ghost use Rattle.life_objects.specs.Apart.{AreApartForEver};
ghost use Rattle.life_orbit.specs.Hulls.{IsHullOf};
ghost use Rattle.life_orbit.specs.Passing.{AreApartBetween, IsAheadBefore, IsPastAfter};
ghost use Rattle.life_orbit.specs.Reach.{IsReach};

use crate::hull::Hull;
use crate::lanes::{Lane, Span, rounds_along};
use crate::orbit::Orbit;
use crate::periods::rounds_together;
use crate::shift::repeated;

/// The rounds in which two boxes can be near, where they move by these steps in each: those in which they can be near along
/// both axes. Where both move equally far and are near along both, one round decides for all.
pub fn rounds_near(hull: Hull, by: (i128, i128), other_hull: Hull, other_by: (i128, i128)) -> Span
    requires reach { IsReach (2 ^ 49) by }
    requires other_reach { IsReach (2 ^ 49) other_by }
    ensures ahead { IsAheadBefore (record {
      hull = hull;
      by = by;
      other_hull = other_hull;
      other_by = other_by;
    }) result.from }
    ensures past { IsPastAfter (record {
      hull = hull;
      by = by;
      other_hull = other_hull;
      other_by = other_by;
    }) result.until }
    ensures first { result.from ≤ 2 ^ 52 }
    ensures last { result.until ≤ 2 ^ 52 }
{
    let across = rounds_along(
        Lane {
            first: hull.left,
            last: hull.right,
            by: by.0,
        },
        Lane {
            first: other_hull.left,
            last: other_hull.right,
            by: other_by.0,
        },
    );
    let down = rounds_along(
        Lane {
            first: hull.top,
            last: hull.bottom,
            by: by.1,
        },
        Lane {
            first: other_hull.top,
            last: other_hull.bottom,
            by: other_by.1,
        },
    );
    match (across, down) {
        (Some(columns), Some(rows)) => Span {
            from: columns.from.max(rows.from),
            until: columns.until.min(rows.until),
        },
        (Some(columns), None) => columns,
        (None, Some(rows)) => rows,
        (None, None) => Span { from: 0, until: 1 },
    }
}

/// The generations to watch: two sets that are apart in each of them stay apart for ever.
pub fn watch(orbit: &Orbit, hull: Hull, other: &Orbit, other_hull: Hull) -> Span
    requires rule { orbit.now.rule ≡ other.now.rule }
    requires hull { IsHullOf hull orbit.now }
    requires other_hull { IsHullOf other_hull other.now }
    ensures enough { AreApartBetween orbit.now.rule result.from result.until
        orbit.now.set other.now.set → AreApartForEver orbit.now.rule orbit.now.set other.now.set }
    ensures few { result.until < 2 ^ 94 }
{
    let period = orbit.period();
    let (rounds, other_rounds) = rounds_together(period, other.period());
    let by = repeated(rounds as u128, orbit.displacement());
    let other_by = repeated(other_rounds as u128, other.displacement());
    let near = rounds_near(hull, by, other_hull, other_by);
    let round = rounds as u128 * period as u128;
    Span {
        from: near.from * round,
        until: near.until * round,
    }
}
