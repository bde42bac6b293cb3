//! The walk of a pattern to the bound, during which ash and growth are searched for.
ghost use Rattle.std.specs.Prelude.{◌≡◌, ℕ, ◌+◌, ◌≤◌, All, IfNone, IfOk, IfSome, List, Option, min};
ghost use Rattle.life_model.specs.Evolution.{generation};
ghost use Rattle.std.specs.Bool.{OnTrue};
ghost use Rattle.life_model.specs.Generation.{Generation};
ghost use Rattle.life_model.specs.Generation as generations;
ghost use Rattle.life_cells.specs.Limits.{IsWithin};
ghost use Rattle.life_objects.specs.Ash.{IsAsh};
ghost use Rattle.life_ash.specs.Fates.{EndsLater, IsFate};
ghost use Rattle.life_census.specs.Grown.{NeverGrows};
ghost use Rattle.life_census.specs.OnTheWay.{IsOnTheWay, IsSeen};

use crate::growing::growth_on_the_way;
use crate::island::never_grows;
use crate::seen::Seen;
use life_apart::Trail;
use life_ash::{Ash, Fate, Found, Known, fate_past, walk_on};
use life_cells::{CellList, Rule};
use life_orbit::BOUND_LIMIT;
use life_plane::{Observer, Plane, Unobserved};
use life_strays::{Pace, never_grow, one_never_grows};
use life_things::WAY_LIMIT;
use std::alloc::{AllocError, Global};
use std::mem;

/// The first age at which the population is recorded. At each further one, twice the one before it, growth is searched for if
/// the population has risen since.
const FIRST_LOOK: u32 = 256;

/// After the bound, patterns are checked for falling apart late for this many times the horizon. That saves the search for
/// their growth, which costs about as much.
const LATER: u32 = 8;

/// Up to this many times the bound, patterns are checked for falling apart before they are followed for that alone.
const LOOKED_AT: u32 = 4;

/// A pattern with more cells than this is not looked at after the bound.
const MANY: u64 = 20_000;

/// For a pattern with fewer cells than this, one island alone is followed before the pattern is looked at after the bound.
const FEW: u64 = 4_000;

/// Walks on to an age up to the bound. Returns the fate of the pattern, if it is found before; the trail is empty then, if the
/// fate has it.
fn fate_before<P: Plane, W: Observer>(
    alloc: Global,
    observer: &W,
    plane: &mut P,
    met: &mut Known,
    pace: &mut Pace,
    trail: &mut Trail,
    limit: Option<u32>,
    end: u32,
) -> Result<Option<Fate>, AllocError>
    requires start { P.steps_made plane.old ≤ end }
    requires end { end ≤ met.old.bound }
    requires way { (G : Generation) ×
        IsOnTheWay met.old.rule G limit (P.members plane.old) (P.steps_made plane.old) trail.old }
    ensures same { met.new ≡ met.old }
    ensures some { IfOk result (λ found. IfSome found (λ fate. (G : Generation) →
        IsOnTheWay met.old.rule G limit (P.members plane.old) (P.steps_made plane.old) trail.old →
        IsFate met.old.rule G met.old.bound limit fate)) }
    ensures none { IfOk result (λ found. IfNone found ((G : Generation) →
        IsOnTheWay met.old.rule G limit (P.members plane.old) (P.steps_made plane.old) trail.old →
        IsOnTheWay met.old.rule G limit (P.members plane.new) (P.steps_made plane.new) trail.new)) }
    ensures age { IfOk result (λ found. IfNone found (P.steps_made plane.new ≡ end)) }
{
    let last = 3 * met.bound();
    match walk_on(alloc, observer, plane, met, pace, trail, limit, end, last)? {
        Found::Large { generation } => Ok(Some(Fate::Large { generation })),
        Found::Parts { parts, age } => {
            Ok(Some(Fate::Ash {
                ash: Ash::of(parts),
                age,
                trail: mem::replace(trail, Trail::new(alloc)),
            }))
        }
        Found::Nothing => Ok(None),
    }
}

/// True if a pattern is seen to fall apart in the generations after that of a plane: up to sixteen times the plane's age, but
/// at most `LATER` times the horizon further, provided that this is more than `LOOKED_AT` times the age. A pattern that has
/// more cells than `MANY`, or comes to have more, is not looked at further.
fn ends_late<P: Plane>(
    alloc: Global,
    plane: P,
    rule: &Rule,
    horizon: u32,
) -> Result<bool, AllocError>
    requires age { 1 ≤ P.steps_made plane × P.steps_made plane ≤ BOUND_LIMIT }
    requires horizon { horizon ≤ WAY_LIMIT }
    requires way { (G : Generation) × (P.members plane ≡ generation rule.now G (P.steps_made plane)) }
    ensures { IfOk result (λ ends. (G : Generation) → P.members plane ≡ generation rule.now G (P.steps_made plane) →
        OnTrue ends (EndsLater rule.now G)) }
{
    let age = plane.age();
    let late = BOUND_LIMIT.min(16 * age).min(age + LATER * horizon);
    if late <= LOOKED_AT * age || plane.population() > MANY {
        return Ok(false);
    }
    let mut later = plane;
    let mut met = Known::new(alloc, rule, late);
    let mut pace = Pace::new();
    let mut trail = Trail::new(alloc);
    let mut end = age;
    'stretches: while end < late {
        end = late.min(end + horizon.max(1));
        match fate_before(
            alloc,
            &Unobserved,
            &mut later,
            &mut met,
            &mut pace,
            &mut trail,
            None,
            end,
        )? {
            Some(Fate::Ash { .. }) => return Ok(true),
            Some(_) => return Ok(false),
            None => {}
        }
        if later.population() > MANY {
            return Ok(false);
        }
    }
    Ok(false)
}

/// True if a plane's cells, of the age of the bound, are seen to be no ash within it and not to grow within the horizon. If
/// they are fewer than the generations so far, or the horizon is shorter than the bound, the answer is false at once: the
/// pattern is then looked at after the bound first, which costs little.
fn are_refused<P: Plane>(
    alloc: Global,
    plane: &P,
    rule: &Rule,
    horizon: u32,
) -> Result<bool, AllocError>
    requires age { P.steps_made plane.now ≤ BOUND_LIMIT }
    ensures ash { IfOk result (λ are. OnTrue are ((parts : List Generation) →
        IsAsh rule.now (P.steps_made plane.now) (P.members plane.now) parts → ⊥)) }
    ensures growth { IfOk result (λ are. OnTrue are
        (NeverGrows rule.now (min horizon (P.steps_made plane.now)) (P.members plane.now))) }
{
    let age = plane.age();
    let population = plane.population();
    if horizon < age || population < u64::from(age) {
        return Ok(false);
    }
    if population < FEW {
        return one_never_grows(alloc, plane, rule, age);
    }
    never_grow(alloc, plane, rule, age)
}

/// The observation about a pattern, from the plane of its generation of the bound and its fate. A pattern that does not grow
/// usually shows it at little cost, if it is not known yet. Otherwise the pattern is checked for falling apart late.
fn seen_at_bound<P: Plane>(
    alloc: Global,
    plane: P,
    rule: &Rule,
    fate: Fate,
    horizon: u32,
    refused: bool,
) -> Result<Seen, AllocError>
    requires age { 1 ≤ P.steps_made plane × P.steps_made plane ≤ BOUND_LIMIT }
    requires horizon { horizon ≤ WAY_LIMIT }
    requires way { (G : Generation) × (P.members plane ≡ generation rule.now G (P.steps_made plane)) }
    requires refused { OnTrue refused (NeverGrows rule.now (min horizon (P.steps_made plane)) (P.members plane)) }
    ensures { IfOk result (λ seen. (G : Generation) (limit : Option ℕ) →
        P.members plane ≡ generation rule.now G (P.steps_made plane) →
        IsFate rule.now G (P.steps_made plane) limit fate →
        IsSeen rule.now G (P.steps_made plane) limit horizon seen) }
{
    match fate {
        Fate::Unresolved { ends: false } => {
            if refused || never_grows(alloc, &plane, rule, horizon.min(plane.age()))? {
                return Ok(Seen::Unresolved);
            }
            let ends = ends_late(alloc, plane, rule, horizon)?;
            Ok(Seen::Becomes {
                fate: Fate::Unresolved { ends },
            })
        }
        fate => Ok(Seen::Becomes { fate }),
    }
}

/// The observation about a pattern within the bound. On the way there it is checked now and then for having fallen apart, and
/// each time that the age has doubled for growth, if its population has risen since then and rises steadily. The generations on
/// the way are reported to an observer.
pub fn seen<P: Plane, W: Observer>(
    alloc: Global,
    observer: &W,
    rule: &Rule,
    cells: &CellList,
    bound: u32,
    limit: Option<u32>,
    horizon: u32,
) -> Result<Seen, AllocError>
    requires bound { 1 ≤ bound × bound ≤ BOUND_LIMIT }
    requires horizon { horizon ≤ WAY_LIMIT }
    requires fits { All (IsWithin 0) (generations.cells cells.now) }
    ensures { IfOk result (IsSeen rule.now cells.now bound limit horizon) }
{
    let mut plane = P::from_cells(alloc, cells)?;
    let mut met = Known::new(alloc, rule, bound);
    let mut pace = Pace::new();
    let mut trail = Trail::new(alloc);
    let mut next = FIRST_LOOK;
    let mut before = u64::MAX;
    'looks: while next < bound {
        if let Some(fate) = fate_before(
            alloc, observer, &mut plane, &mut met, &mut pace, &mut trail, limit, next,
        )? {
            return Ok(Seen::Becomes { fate });
        }
        let population = plane.population();
        if population > before {
            if let Some(growth) = growth_on_the_way(alloc, &plane, rule, cells, limit, horizon)? {
                return Ok(Seen::Grows { growth });
            }
        }
        before = population;
        next *= 2;
    }
    if let Some(fate) = fate_before(
        alloc, observer, &mut plane, &mut met, &mut pace, &mut trail, limit, bound,
    )? {
        return Ok(Seen::Becomes { fate });
    }
    let refused = are_refused(alloc, &plane, rule, horizon)?;
    let fate = fate_past(
        alloc, observer, &plane, &mut met, &mut pace, trail, limit, refused,
    )?;
    seen_at_bound(alloc, plane, rule, fate, horizon, refused)
}
