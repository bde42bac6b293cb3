//! Islands that are followed to show that there is no ash.
ghost use Rattle.std.specs.Prelude.{◌≡◌, ℕ, ◌*◌, ◌+◌, ◌/◌, ◌≤◌, All, IfOk, IfSome, OnOk, true};
ghost use Rattle.std.specs.Bool.{OnTrue};
ghost use Rattle.std.specs.List.{Contains};
ghost use Rattle.life_model.specs.Evolution.{generation};
ghost use Rattle.life_model.specs.Generation.{Generation};
ghost use Rattle.life_model.specs.Rule.{Rule as ModelRule};
ghost use Rattle.life_strays.specs.Strays.{IsIslandNow, IsTrail};
ghost use Rattle.life_strays.specs.declared.trail.Trail.{Trail};

use crate::heirs::heirs_of;
use crate::returning::still_tells;
use crate::trail::Trail;
use life_cells::{CellList, Rule};
use life_classes::Class;
use life_plane::{AGE_LIMIT, Plane};
use std::alloc::{AllocError, Global};

/// The cells that hang on islands are looked for next to about this many cells. Those that hang on others are left out.
const MANY: u32 = 16;

/// The islands as trails on which their own cells hang, each with `tells` set.
fn first_trails(alloc: Global, islands: Vec<Class>) -> Result<Vec<Trail>, AllocError>
    ensures { IfOk result (λ trails. (R : ModelRule) (after : ℕ) (G : Generation) →
        All (IsIslandNow R G) islands.items → All (IsTrail R after 0 G) trails.items) }
{
    let mut trails = Vec::new(alloc);
    for island in islands {
        trails.push(Trail {
            set: island.first,
            heirs: island.last,
            tells: true,
        })?;
    }
    Ok(trails)
}

/// The trails, each with `tells` set again.
fn told_anew(alloc: Global, trails: Vec<Trail>) -> Result<Vec<Trail>, AllocError>
    ensures { IfOk result (λ anew. (R : ModelRule) (after later n : ℕ) (G : Generation) → n ≤ later →
        All (IsTrail R after n G) trails.items → All (IsTrail R later n G) anew.items) }
{
    let mut anew = Vec::new(alloc);
    for trail in trails {
        anew.push(Trail {
            set: trail.set,
            heirs: trail.heirs,
            tells: true,
        })?;
    }
    Ok(anew)
}

/// A trail a generation later: in generation `number`, which the later plane is at.
fn next_trail<P: Plane>(
    alloc: Global,
    start: &P,
    later: &P,
    trail: Trail,
    number: u32,
    after: u32,
    listed: &mut Option<CellList>,
) -> Result<Trail, AllocError>
    requires number { number ≤ AGE_LIMIT }
    requires listed { IfSome listed.old (λ list. list ≡ P.members later.now) }
    ensures listed { OnOk result (IfSome listed.new (λ list. list ≡ P.members later.now)) }
    ensures trail { IfOk result (λ next. (R : ModelRule) (n : ℕ) → number ≡ n + 1 →
        P.members later.now ≡ generation R (P.members start.now) (n + 1) →
        IsTrail R after n (P.members start.now) trail → IsTrail R after (n + 1) (P.members start.now) next) }
{
    let heirs = heirs_of(alloc, later, &trail.heirs, MANY)?;
    let tells = still_tells(start, later, &trail, &heirs, number, after, listed)?;
    Ok(Trail {
        set: trail.set,
        heirs,
        tells,
    })
}

/// The trails a generation later: in generation `number`, which the later plane is at.
fn next_trails<P: Plane>(
    alloc: Global,
    start: &P,
    later: &P,
    trails: Vec<Trail>,
    number: u32,
    after: u32,
) -> Result<Vec<Trail>, AllocError>
    requires number { number ≤ AGE_LIMIT }
    ensures { IfOk result (λ left. (R : ModelRule) (n : ℕ) → number ≡ n + 1 →
        P.members later.now ≡ generation R (P.members start.now) (n + 1) →
        All (IsTrail R after n (P.members start.now)) trails.items →
        All (IsTrail R after (n + 1) (P.members start.now)) left.items) }
{
    let mut listed = None;
    let mut left = Vec::new(alloc);
    for trail in trails {
        left.push(next_trail(alloc, start, later, trail, number, after, &mut listed)?)?;
    }
    Ok(left)
}

/// True if one of the trails has `tells` set.
pub fn some_tell(trails: &[Trail]) -> bool
    ensures { OnTrue result ((trail : Trail) × Contains trails.now trail × (trail.tells ≡ true)) }
{
    for trail in trails {
        if trail.tells {
            return true;
        }
    }
    false
}

/// The trails of islands of a plane, followed to the bound. Those that lack some cells in each generation of its later half
/// have `tells` set. The later plane has the same cells at first, and is `bound` generations later afterwards.
pub fn first_told<P: Plane>(
    alloc: Global,
    start: &P,
    later: &mut P,
    rule: &Rule,
    islands: Vec<Class>,
    bound: u32,
) -> Result<Vec<Trail>, AllocError>
    requires young { P.steps_made later.old + bound ≤ AGE_LIMIT }
    requires cells { P.members later.old ≡ P.members start.now }
    requires islands { All (IsIslandNow rule.now (P.members start.now)) islands.items }
    ensures later { OnOk result
        (P.members later.new ≡ generation rule.now (P.members start.now) bound) }
    ensures age { OnOk result (P.steps_made later.new ≡ P.steps_made later.old + bound) }
    ensures trails { IfOk result
        (λ trails. All (IsTrail rule.now (bound / 2) bound (P.members start.now)) trails.items) }
{
    let after = bound / 2;
    let mut trails = first_trails(alloc, islands)?;
    for n in 0..bound {
        later.step(rule)?;
        trails = next_trails(alloc, start, later, trails, n + 1, after)?;
    }
    Ok(trails)
}

/// True if one of the trails, followed from the bound to three times the bound, has `tells` set then: it lacks some cells
/// in each generation after twice the bound.
pub fn later_told<P: Plane>(
    alloc: Global,
    start: &P,
    later: &mut P,
    rule: &Rule,
    trails: Vec<Trail>,
    bound: u32,
) -> Result<bool, AllocError>
    requires young { P.steps_made later.old + 2 * bound ≤ AGE_LIMIT }
    requires bound { 3 * bound ≤ AGE_LIMIT }
    requires cells { P.members later.old ≡ generation rule.now (P.members start.now) bound }
    requires trails { All (IsTrail rule.now (bound / 2) bound (P.members start.now)) trails.items }
    ensures { IfOk result (λ told. OnTrue told ((trail : Trail) × (trail.tells ≡ true)
        × IsTrail rule.now (2 * bound) (3 * bound) (P.members start.now) trail)) }
{
    let after = 2 * bound;
    let mut trails = told_anew(alloc, trails)?;
    for n in bound..3 * bound {
        if !some_tell(trails.as_slice()) {
            return Ok(false);
        }
        later.step(rule)?;
        trails = next_trails(alloc, start, later, trails, n + 1, after)?;
    }
    if !some_tell(trails.as_slice()) {
        return Ok(false);
    }
    Ok(true)
}
