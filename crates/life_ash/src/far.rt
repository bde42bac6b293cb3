//! Walks far past the bound, for conclusions from later generations about the generation of the bound.
ghost use Rattle.std.specs.Prelude.{◌≡◌, ◌+◌, ◌*◌, ◌<◌, ◌≤◌, ◌^◌, IfOk, length};
ghost use Rattle.life_model.specs.Evolution.{generation};
ghost use Rattle.life_model.specs.Generation.{Generation};
ghost use Rattle.life_ash.specs.Counted.{IsPast};
ghost use Rattle.life_ash.specs.Parts.{ash_age_limit};
ghost use Rattle.life_ash.specs.Telling.{IfUntold, IsTold};

use crate::found::Found;
use crate::known::Known;
use crate::newcomers::is_no_ash;
use crate::past::count_on;
use crate::stretches::Totals;
use crate::told::Told;
use life_plane::{Plane, Unobserved};
use life_strays::{Pace, are_no_ash, is_uneven};
use std::alloc::{AllocError, Global};

/// A pattern is followed to at most this many times the bound.
const LATE: u32 = 8;

/// After this many times the bound, islands are followed where there are few cells.
const FIRST: u32 = 4;

/// No generation of this age or later is looked at.
const END: u32 = 400_001;

/// Islands are followed before the walk goes further if all generations up to the bound have about this many cells together, or
/// fewer. With more cells it takes long to refute growth too, which ash that a pattern becomes does at once.
const FEW: u64 = 20_000_000;

/// The number of cells in the stretch that ends with the total at a place.
fn stretch_to(totals: &[u128], place: usize) -> u128
    requires { 1 ≤ place × place < length totals.now }
{
    totals[place].saturating_sub(totals[place - 1])
}

/// True if a further stretch costs much and promises little: the last one has more than `FEW` cells, and less than a tenth more
/// than the one before it. The totals are those before each stretch and after the last.
fn is_dear(totals: &[u128]) -> bool {
    let count = totals.len();
    if count < 3 {
        return false;
    }
    let last = stretch_to(totals, count - 1);
    u128::from(FEW) < last && last / 11 < stretch_to(totals, count - 2) / 10
}

/// Walks on for a stretch of `bound` generations. One stretch has many more cells than another only if there is no ash. On the
/// way it checks now and then whether the cells are ash.
fn told_by_stretch<P: Plane>(
    alloc: Global,
    plane: &mut P,
    totals: &mut Totals,
    met: &mut Known,
    pace: &mut Pace,
) -> Result<Told, AllocError>
    requires past { met.old.bound ≤ P.steps_made plane.old }
    requires young { P.steps_made plane.old ≤ ash_age_limit + 1 }
    requires small { totals.old.total ≤ P.steps_made plane.old * 2 ^ 64 }
    ensures same { met.new ≡ met.old }
    ensures past { IfOk result (λ told. IfUntold told (met.old.bound ≤ P.steps_made plane.new)) }
    ensures young { IfOk result (λ told. IfUntold told (P.steps_made plane.new ≤ ash_age_limit + 1)) }
    ensures small { IfOk result
        (λ told. IfUntold told (totals.new.total ≤ P.steps_made plane.new * 2 ^ 64)) }
    ensures counted { IfOk result (λ told. IfUntold told ((G : Generation) →
        IsPast met.old.rule met.old.bound G (P.steps_made plane.old) (P.members plane.old) totals.old →
        IsPast met.old.rule met.old.bound G (P.steps_made plane.new) (P.members plane.new) totals.new)) }
    ensures told { IfOk result (λ told. (G : Generation) →
        IsPast met.old.rule met.old.bound G (P.steps_made plane.old) (P.members plane.old) totals.old →
        IsTold met.old.rule met.old.bound (generation met.old.rule G met.old.bound) told) }
{
    let bound = met.bound();
    let end = END.min(plane.age() + bound);
    match count_on(alloc, &Unobserved, plane, totals, met, pace, None, end, end)? {
        Found::Parts { parts, age } => {
            return Ok(Told::Parts {
                parts,
                ago: age.saturating_sub(bound),
            });
        }
        // (without a limit no generation is too large)
        Found::Large { .. } => return Ok(Told::Never),
        Found::Nothing => {}
    }
    let before = totals.before.as_slice();
    if is_uneven(before) {
        return Ok(Told::Never);
    }
    Ok(Told::Nothing)
}

/// Walks on, stretch by stretch. Ends early where a further stretch is expensive.
fn told_until<P: Plane>(
    alloc: Global,
    plane: &mut P,
    totals: &mut Totals,
    met: &mut Known,
    pace: &mut Pace,
) -> Result<Told, AllocError>
    requires past { met.old.bound ≤ P.steps_made plane.old }
    requires young { P.steps_made plane.old ≤ ash_age_limit + 1 }
    requires small { totals.old.total ≤ P.steps_made plane.old * 2 ^ 64 }
    ensures same { met.new ≡ met.old }
    ensures told { IfOk result (λ told. (G : Generation) →
        IsPast met.old.rule met.old.bound G (P.steps_made plane.old) (P.members plane.old) totals.old →
        IsTold met.old.rule met.old.bound (generation met.old.rule G met.old.bound) told) }
{
    'stretches: for _ in FIRST..LATE {
        if is_dear(totals.before.as_slice()) {
            return Ok(Told::Nothing);
        }
        match told_by_stretch(alloc, plane, totals, met, pace)? {
            Told::Nothing => {}
            told => return Ok(told),
        }
    }
    Ok(Told::Nothing)
}

/// True if the generations up to the bound have few cells together, in case that each has about as many as this one.
fn are_few<P: Plane>(plane: &P, bound: u32) -> bool {
    plane.population().saturating_mul(u64::from(bound)) <= FEW
}

/// The conclusion from later generations about a plane's cells, which are as old as the bound: from the numbers of their cells,
/// from what hangs on one of the islands, from the ash that they become, and from sets that are alone and new. The generation
/// after three times the bound is on a plane of its own, and those before it are counted.
pub fn told_later<P: Plane>(
    alloc: Global,
    plane: &P,
    later: P,
    totals: Totals,
    met: &mut Known,
    pace: &mut Pace,
) -> Result<Told, AllocError>
    requires age { P.steps_made plane.now ≡ met.old.bound }
    requires later { P.steps_made later ≡ 3 * met.old.bound + 1 }
    requires small { totals.total ≤ (3 * met.old.bound + 1) * 2 ^ 64 }
    requires past { (G : Generation) × (P.members plane.now ≡ generation met.old.rule G met.old.bound) ×
        IsPast met.old.rule met.old.bound G (3 * met.old.bound + 1) (P.members later) totals }
    ensures same { met.new ≡ met.old }
    ensures told { IfOk result (IsTold met.old.rule met.old.bound (P.members plane.now)) }
{
    let rule = met.rule();
    let bound = met.bound();
    let mut later = later;
    let mut totals = totals;
    if is_uneven(totals.before.as_slice()) {
        return Ok(Told::Never);
    }
    match told_by_stretch(alloc, &mut later, &mut totals, met, pace)? {
        Told::Nothing => {}
        told => return Ok(told),
    }
    let few = are_few(plane, bound);
    if few && are_no_ash(alloc, plane, &rule, bound)? {
        return Ok(Told::Never);
    }
    match told_until(alloc, &mut later, &mut totals, met, pace)? {
        Told::Nothing => {}
        told => return Ok(told),
    }
    if !few && are_no_ash(alloc, plane, &rule, bound)? {
        return Ok(Told::Never);
    }
    if is_no_ash(alloc, plane, met)? {
        return Ok(Told::Never);
    }
    Ok(Told::Nothing)
}
