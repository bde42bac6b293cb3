//! The onset of a pattern's ash.
ghost use Rattle.std.specs.Prelude.{◌≡◌, ℕ, ◌<◌, ◌≤◌, ◌↔◌, All, IfOk, IfSome, IsTrue};
ghost use Rattle.life_model.specs.Evolution.{generation};
ghost use Rattle.life_model.specs.Generation.{Generation};
ghost use Rattle.life_model.specs.Generation as generations;
ghost use Rattle.life_model.specs.Rule.{Rule as ModelRule};
ghost use Rattle.life_cells.specs.Limits.{IsWithin};
ghost use Rattle.life_objects.specs.Ash.{IsAsh};
ghost use Rattle.life_objects.specs.Onset.{HasAsh, IsAshOnset};
ghost use Rattle.life_orbit.specs.Course.{IsCourse};
ghost use Rattle.life_apart.specs.Onsets.Moments.{IsMomentOf};
ghost use Rattle.life_apart.specs.Onsets.Pasts.{IsCourseBy, pasts, sets_of};
ghost use Rattle.life_apart.specs.Onsets.Since.{AreAllApartSince};

use crate::onsets::since::all_apart_since;
use crate::onsets::together::were_together;
use crate::onsets::trail::{Kept, Trail};
use life_cells::{CellList, Rule};
use life_orbit::Orbit;
use life_plane::{AGE_LIMIT, Plane};
use std::alloc::{AllocError, Global};

/// The number of generations that the walk makes from one look to the next.
const BETWEEN_LOOKS: u32 = 32;

/// True if a plane's cells, which are generation `now`, are ash already. The generation of this age is ash of these
/// parts, which have been apart since generation `since`.
fn is_ash_already<P: Plane>(
    alloc: Global,
    plane: &P,
    parts: &[Orbit],
    since: u32,
    now: u32,
    age: u32,
) -> Result<bool, AllocError>
    requires before { now < age }
    requires young { P.steps_made plane.now ≤ AGE_LIMIT }
    requires courses { All IsCourse parts.now }
    requires since { (R : ModelRule) × All (IsCourseBy R) parts.now ×
        AreAllApartSince R (pasts age parts.now) since }
    ensures { IfOk result (λ is. (R : ModelRule) (b : ℕ) (G : Generation) → All (IsCourseBy R) parts.now →
        AreAllApartSince R (pasts age parts.now) since → P.members plane.now ≡ generation R G now →
        IsAsh R b (generation R G age) (sets_of parts.now) → IsTrue is ↔ HasAsh R b (generation R G now)) }
{
    if now < since {
        return Ok(false);
    }
    were_together(alloc, plane, parts, age - now)
}

/// A plane at a kept generation, if that is no ash itself and is before the one of this age, which is ash of these
/// parts.
fn plane_before_ash<P: Plane>(
    alloc: Global,
    kept: &Kept,
    parts: &[Orbit],
    since: u32,
    age: u32,
) -> Result<Option<P>, AllocError>
    requires age { age ≤ AGE_LIMIT }
    requires courses { All IsCourse parts.now }
    requires since { (R : ModelRule) × All (IsCourseBy R) parts.now ×
        AreAllApartSince R (pasts age parts.now) since }
    ensures before { IfOk result (λ found. IfSome found (λ plane. P.steps_made plane ≤ age)) }
    ensures start { IfOk result (λ found. IfSome found (λ plane. (R : ModelRule) (G : Generation) →
        IsMomentOf R G kept.now → P.members plane ≡ generation R G (P.steps_made plane))) }
    ensures none { IfOk result
        (λ found. IfSome found (λ plane. (R : ModelRule) (b : ℕ) (G : Generation) →
        All (IsCourseBy R) parts.now → AreAllApartSince R (pasts age parts.now) since → IsMomentOf R G kept.now →
        IsAsh R b (generation R G age) (sets_of parts.now) →
        HasAsh R b (generation R G (P.steps_made plane)) → ⊥)) }
{
    let number = kept.number();
    if age <= number {
        return Ok(None);
    }
    let plane = kept.plane::<P>(alloc)?;
    if is_ash_already(alloc, &plane, parts, since, number, age)? {
        return Ok(None);
    }
    Ok(Some(plane))
}

/// A plane at a generation of a pattern before which none is ash: the last kept generation that is not ash itself, or
/// else generation 0. The generation of this age is ash of these parts.
fn plane_before_onset<P: Plane>(
    alloc: Global,
    cells: &CellList,
    trail: &Trail,
    parts: &[Orbit],
    since: u32,
    age: u32,
) -> Result<P, AllocError>
    requires fits { All (IsWithin 0) (generations.cells cells.now) }
    requires age { age ≤ AGE_LIMIT }
    requires courses { All IsCourse parts.now }
    requires since { (R : ModelRule) × All (IsCourseBy R) parts.now ×
        AreAllApartSince R (pasts age parts.now) since }
    ensures before { IfOk result (λ plane. P.steps_made plane ≤ age) }
    ensures start { IfOk result (λ plane. (R : ModelRule) → All (IsMomentOf R cells.now) trail.now →
        P.members plane ≡ generation R cells.now (P.steps_made plane)) }
    ensures none { IfOk result (λ plane. (R : ModelRule) (b : ℕ) → All (IsCourseBy R) parts.now →
        AreAllApartSince R (pasts age parts.now) since → All (IsMomentOf R cells.now) trail.now →
        IsAsh R b (generation R cells.now age) (sets_of parts.now) → (n : ℕ) →
        n < P.steps_made plane → HasAsh R b (generation R cells.now n) → ⊥) }
{
    for kept in trail.kept() {
        if let Some(plane) = plane_before_ash(alloc, kept, parts, since, age)? {
            return Ok(plane);
        }
    }
    P::from_cells(alloc, cells)
}

/// The onset of a pattern's ash, if a plane is at generation `start`, before which none is ash, and generation `end` is
/// ash. The later generation of this age is ash of these parts, which have been apart since generation `since`.
fn onset_between<P: Plane>(
    alloc: Global,
    rule: &Rule,
    plane: P,
    parts: &[Orbit],
    since: u32,
    age: u32,
    start: u32,
    end: u32,
) -> Result<u32, AllocError>
    requires order { start ≤ end × end ≤ age × age ≤ AGE_LIMIT }
    requires start { P.steps_made plane ≡ start }
    requires rule { All (IsCourseBy rule.now) parts.now }
    requires courses { All IsCourse parts.now }
    requires since { AreAllApartSince rule.now (pasts age parts.now) since }
    ensures onset { IfOk result (λ onset. (b : ℕ) (G : Generation) →
        P.members plane ≡ generation rule.now G start →
        IsAsh rule.now b (generation rule.now G age) (sets_of parts.now) →
        HasAsh rule.now b (generation rule.now G end) →
        ((n : ℕ) → n < start → HasAsh rule.now b (generation rule.now G n) → ⊥) →
        IsAshOnset rule.now b G onset) }
    ensures within { IfOk result (λ onset. onset ≤ age) }
{
    let mut plane = plane;
    for now in start..end {
        if is_ash_already(alloc, &plane, parts, since, now, age)? {
            return Ok(now);
        }
        plane.step(rule)?;
    }
    Ok(end)
}

/// The onset of a pattern's ash, if the generation of this age is ash of these parts. The parts are followed back to
/// when the last two of them were near, and the pattern forward to the first generation after that with as many cells
/// as the parts had then, and the same ones. All later generations are ash too. So the walk begins with the last
/// generation of the trail that is not ash, and looks at every generation only after the last look that found no ash.
pub fn onset<P: Plane>(
    alloc: Global,
    rule: &Rule,
    cells: &CellList,
    trail: &Trail,
    parts: &[Orbit],
    age: u32,
) -> Result<u32, AllocError>
    requires fits { All (IsWithin 0) (generations.cells cells.now) }
    requires trail { All (IsMomentOf rule.now cells.now) trail.now }
    requires age { age ≤ AGE_LIMIT }
    requires rule { All (IsCourseBy rule.now) parts.now }
    requires courses { All IsCourse parts.now }
    requires ash { (b : ℕ) × IsAsh rule.now b (generation rule.now cells.now age) (sets_of parts.now) }
    ensures onset { IfOk result (λ onset. (b : ℕ) →
        IsAsh rule.now b (generation rule.now cells.now age) (sets_of parts.now) →
        IsAshOnset rule.now b cells.now onset) }
    ensures within { IfOk result (λ onset. onset ≤ age) }
{
    let since = all_apart_since(parts, age);
    let mut plane = plane_before_onset::<P>(alloc, cells, trail, parts, since, age)?;
    let mut before = plane.copy()?;
    let mut start = plane.age();
    for now in start..age {
        if now % BETWEEN_LOOKS == 0 {
            if is_ash_already(alloc, &plane, parts, since, now, age)? {
                return onset_between(alloc, rule, before, parts, since, age, start, now);
            }
            before = plane.copy()?;
            start = now;
        }
        plane.step(rule)?;
    }
    onset_between(alloc, rule, before, parts, since, age, start, age)
}
