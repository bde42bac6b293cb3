//! The census of patterns.
ghost use Rattle.std.specs.Prelude.{◌≡◌, ℕ, ◌≤◌, All, IfNone, IfOk, IfSome, min};
ghost use Rattle.life_model.specs.Evolution.{generation};
ghost use Rattle.life_model.specs.Generation.{Generation};
ghost use Rattle.life_model.specs.Rule.{Rule as ModelRule};
ghost use Rattle.life_model.specs.Generation as generations;
ghost use Rattle.life_cells.specs.Limits.{IsWithin};
ghost use Rattle.life_objects.specs.Ash.{IsAsh};
ghost use Rattle.life_answer.specs.Census.{fallen_of};
ghost use Rattle.life_answer.specs.Growing.{allowed_bound, growing_or};
ghost use Rattle.life_answer.specs.Questions.{finding_to, outcome_to};
ghost use Rattle.life_answer.specs.Told.{growth_told};
ghost use Rattle.life_answer.specs.declared.finding.Outcome.TheVariants.{Recurs};
ghost use Rattle.life_answer.specs.declared.question.Question.TheVariants.{Objects};
ghost use Rattle.life_apart.specs.Sets.{IsCourseBy, sets_of};
ghost use Rattle.life_apart.specs.Onsets.Moments.{IsMomentOf};
ghost use Rattle.life_ash.specs.Fates.{IsFate};
ghost use Rattle.life_census.specs.Grown.{IsGrownWithin, NeverGrowsThen};

use crate::growing::{growth_at_bound, growth_within};
use crate::parts::parts_of;
use crate::seen::Seen;
use crate::telling::told;
use crate::walk::seen;
use life_answer::{Code, EngineList, Finding, Outcome, Part};
use life_apart::{Trail, onset};
use life_ash::{Ash, Fate};
use life_cells::{CellList, Rule};
use life_growing::Growth;
use life_orbit::{BOUND_LIMIT, Orbit};
use life_plane::{Observer, Plane};
use life_things::WAY_LIMIT;
use std::alloc::{AllocError, Global};

/// The fate of a pattern, from the ash that its generation of this age is and some generations on a trail: the first generation
/// that is ash, and the counts of the objects by codes; or how it recurs from that generation on, if they count as one. It is
/// the same within each bound that is no less than the age.
fn outcome_of_ash<P: Plane>(
    alloc: Global,
    rule: &Rule,
    cells: &CellList,
    ash: &Ash,
    age: u32,
    trail: &Trail,
    near: bool,
) -> Result<Outcome, AllocError>
    requires fits { All (IsWithin 0) (generations.cells cells.now) }
    requires age { age ≤ BOUND_LIMIT }
    requires trail { All (IsMomentOf rule.now cells.now) trail.now }
    requires rule { All (IsCourseBy rule.now) ash.now }
    requires ash { (b : ℕ) × IsAsh rule.now b (generation rule.now cells.now age) (sets_of ash.now) }
    ensures { IfOk result (λ outcome. (b : ℕ) → age ≤ b →
        IsAsh rule.now b (generation rule.now cells.now age) (sets_of ash.now) →
        outcome ≡ fallen_of near rule.now cells.now b) }
{
    let orbits = ash.orbits();
    let onset = onset::<P>(alloc, rule, cells, trail, orbits, age)?;
    let parts = parts_of(alloc, orbits, near)?;
    if parts.count() != 1 {
        return Ok(Outcome::Ash { onset, parts });
    }
    recurring(alloc, onset, &orbits[0], &parts.as_slice()[0])
}

/// The outcome that a pattern recurs from this onset on, like the set of an orbit, which counts as this part.
fn recurring(alloc: Global, onset: u32, orbit: &Orbit, part: &Part) -> Result<Outcome, AllocError>
    ensures { IfOk result (λ outcome. outcome
        ≡ Recurs onset orbit.now.period orbit.now.displacement.0 orbit.now.displacement.1 part.now.code) }
{
    let (dx, dy) = orbit.displacement();
    Ok(Outcome::Recurs {
        onset,
        period: orbit.period(),
        dx,
        dy,
        code: Code::of(alloc, part.code.as_slice())?,
    })
}

/// The report on growth that was searched for within the greatest bound up to which a pattern is small enough.
fn engines_of(
    alloc: Global,
    growth: Option<Growth>,
    near: bool,
) -> Result<Option<EngineList>, AllocError>
    ensures { IfOk result (λ found. (R : ModelRule) (G : Generation) (allowed horizon : ℕ) →
        IfSome growth (IsGrownWithin R G allowed horizon) →
        IfNone growth (NeverGrowsThen R G allowed horizon) →
        found ≡ growth_told near R (min horizon allowed) (generation R G allowed)) }
{
    match growth {
        Some(growth) => Ok(Some(told(alloc, &growth, near)?)),
        None => Ok(None),
    }
}

/// A pattern's growth by these engines, if there are any, or else another outcome.
fn growing_or(engines: Option<EngineList>, outcome: Outcome) -> Outcome
    ensures { result ≡ growing_or engines outcome }
{
    match engines {
        Some(engines) => Outcome::Grows { engines },
        None => outcome,
    }
}

/// The outcome of a pattern with this fate. Ash never grows, so no growth is searched for if a pattern is seen to end.
fn outcome_of_fate<P: Plane>(
    alloc: Global,
    rule: &Rule,
    cells: &CellList,
    fate: Fate,
    bound: u32,
    limit: Option<u32>,
    near: bool,
    horizon: u32,
) -> Result<Outcome, AllocError>
    requires bound { 1 ≤ bound × bound ≤ BOUND_LIMIT }
    requires horizon { 1 ≤ horizon × horizon ≤ WAY_LIMIT }
    requires fits { All (IsWithin 0) (generations.cells cells.now) }
    requires fate { IsFate rule.now cells.now bound limit fate }
    ensures { IfOk result (λ outcome.
        outcome ≡ outcome_to (Objects bound limit near horizon) rule.now cells.now) }
{
    match fate {
        Fate::Ash { ash, age, trail } => {
            outcome_of_ash::<P>(alloc, rule, cells, &ash, age, &trail, near)
        }
        Fate::Unresolved { ends: true } => Ok(Outcome::Unresolved),
        Fate::Unresolved { ends: false } => {
            let growth = growth_at_bound::<P>(alloc, rule, cells, bound, limit, horizon)?;
            let engines = engines_of(alloc, growth, near)?;
            Ok(growing_or(engines, Outcome::Unresolved))
        }
        Fate::Large { generation } => {
            let growth = growth_within::<P>(alloc, rule, cells, bound, limit, horizon)?;
            let engines = engines_of(alloc, growth, near)?;
            Ok(growing_or(engines, Outcome::Large { generation }))
        }
    }
}

/// The fate of a pattern within the bound. `Recurs` exactly if it falls apart into one object: it recurs as that one does, from
/// the first generation that is ash on. `Ash` exactly if it falls apart into none or several: that generation, and the objects,
/// counted by codes. Otherwise the engines by which it grows, counted by what is reported of each, and with the codes of what
/// it emits: `Grows` exactly if it grows within the horizon, as seen within the greatest bound, up to this one, such that no
/// generation up to four times that bound has more cells than it may have. Otherwise `Large`, with the first such generation,
/// if some generation from 0 to three times the bound has more cells than it may have; and that takes precedence over `Recurs`
/// and `Ash`. Otherwise `Unresolved`.
///
/// The bound is 1 to 100,000 generations, and the horizon 1 to 10,000. With `near`, cells that are near one another count as
/// one object; otherwise the independent parts of each object count. The generations on the way, up to three times the bound,
/// are reported to an observer.
pub fn census<P: Plane, W: Observer>(
    alloc: Global,
    observer: &W,
    rule: &Rule,
    cells: &CellList,
    bound: u32,
    limit: Option<u32>,
    near: bool,
    horizon: u32,
) -> Result<Finding, AllocError>
    requires bound { 1 ≤ bound × bound ≤ BOUND_LIMIT }
    requires horizon { 1 ≤ horizon × horizon ≤ WAY_LIMIT }
    requires fits { All (IsWithin 0) (generations.cells cells.now) }
    ensures { IfOk result
        (λ found. found ≡ finding_to (Objects bound limit near horizon) rule.now cells.now) }
{
    let population = cells.len() as u64;
    let outcome = match seen::<P, W>(alloc, observer, rule, cells, bound, limit, horizon)? {
        Seen::Grows { growth } => Outcome::Grows {
            engines: told(alloc, &growth, near)?,
        },
        Seen::Becomes { fate } => {
            outcome_of_fate::<P>(alloc, rule, cells, fate, bound, limit, near, horizon)?
        }
        Seen::Unresolved => Outcome::Unresolved,
    };
    Ok(Finding {
        population,
        outcome,
    })
}
