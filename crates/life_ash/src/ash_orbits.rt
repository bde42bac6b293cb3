//! The ash that a set of cells is, if it is ash at all.
ghost use Rattle.std.specs.Prelude.{◌≡◌, ℕ, ◌≤◌, ◌↔◌, All, IfNone, IfOk, IfSome, IsTrue, List};
ghost use Rattle.life_model.specs.Generation.{Generation};
ghost use Rattle.life_objects.specs.Ash.{IsAsh};
ghost use Rattle.life_ash.specs.Ahead.{IsAshThen};
ghost use Rattle.life_orbit.specs.Course.{IsCourse};
ghost use Rattle.life_apart.specs.Sets.{IsCourseBy, sets_of};
ghost use Rattle.life_ash.specs.Parts.{IsFit, IsPlaced, ash_age_limit};

use crate::known::Known;
use crate::parts::{only_parts, parts_before};
use crate::whole::are_objects;
use life_apart::{are_apart, are_together};
use life_cells::Rule;
use life_orbit::{BOUND_LIMIT, Orbit};
use life_plane::Plane;
use std::alloc::{AllocError, Global};
use std::marker::Model;

/// The parts of ash.
#[derive(Drop)]
pub struct Ash {
    orbits: Vec<Orbit>,
}

impl Model for Ash {
    ghost use Rattle.std.specs.Prelude.{All, List};
    ghost use Rattle.std.specs.Coded.{coded_list};
    ghost use Rattle.life_ash.specs.Parts.{IsPlaced};
    ghost use Rattle.life_orbit.specs.Course.{Course, IsCourse, coded_course};

    ghost Value = { List Course };

    ghost coded = { coded_list coded_course };

    ghost view = { λ a. a.orbits.items };

    ghost invariant = { λ a. All IsPlaced a.orbits.items × All IsCourse a.orbits.items };
}

impl Ash {
    /// The sets of these orbits, all of whose cells are in the field at age 400,000.
    pub fn of(orbits: Vec<Orbit>) -> Ash
        requires placed { All IsPlaced orbits.items }
        requires courses { All IsCourse orbits.items }
        ensures { result ≡ orbits.items }
    {
        Ash { orbits }
    }

    /// The orbits of the parts.
    pub fn orbits(&self) -> &[Orbit]
        ensures value { result.now ≡ self.now }
        ensures placed { All IsPlaced result.now }
        ensures courses { All IsCourse result.now }
    {
        self.orbits.as_slice()
    }
}

/// True if a plane's cells are ash of these parts.
pub fn is_ash<P: Plane>(
    alloc: Global,
    plane: &P,
    parts: &[Orbit],
    rule: &Rule,
    bound: u32,
) -> Result<bool, AllocError>
    requires bound { bound ≤ BOUND_LIMIT }
    requires fit { All (IsFit rule.now bound) parts.now }
    ensures { IfOk result
        (λ is. IsTrue is ↔ IsAsh rule.now bound (P.members plane.now) (sets_of parts.now)) }
{
    let cells = plane.cells()?;
    if !are_together(alloc, parts, &cells)? {
        return Ok(false);
    }
    if !are_apart(alloc, parts) {
        return Ok(false);
    }
    are_objects::<P>(alloc, parts, rule, bound)
}

/// The ash that a plane's cells are within the bound of `known`, if they are ash of these parts.
fn ash_if<P: Plane>(
    alloc: Global,
    plane: &P,
    known: &Known,
    parts: Vec<Orbit>,
) -> Result<Option<Ash>, AllocError>
    requires { All (IsFit known.now.rule known.now.bound) parts.items }
    ensures some { IfOk result (λ found. IfSome found (λ ash.
        IsAsh known.now.rule known.now.bound (P.members plane.now) (sets_of ash))) }
    ensures rule { IfOk result
        (λ found. IfSome found (λ ash. All (IsCourseBy known.now.rule) ash)) }
    ensures none { IfOk result (λ found. IfNone found
        (IsAsh known.now.rule known.now.bound (P.members plane.now) (sets_of parts.items) → ⊥)) }
{
    let rule = known.rule();
    let bound = known.bound();
    if !is_ash(alloc, plane, parts.as_slice(), &rule, bound)? {
        return Ok(None);
    }
    Ok(Some(Ash::of(parts)))
}

/// The ash that a plane's cells are within the bound of `known`, if they are ash at all.
pub fn ash_by<P: Plane>(
    alloc: Global,
    plane: &P,
    known: &mut Known,
) -> Result<Option<Ash>, AllocError>
    requires young { P.steps_made plane.now ≤ ash_age_limit }
    ensures some { IfOk result (λ found. IfSome found (λ ash.
        IsAsh known.old.rule known.old.bound (P.members plane.now) (sets_of ash))) }
    ensures rule { IfOk result
        (λ found. IfSome found (λ ash. All (IsCourseBy known.old.rule) ash)) }
    ensures none { IfOk result (λ found. IfNone found ((parts : List Generation) →
        IsAsh known.old.rule known.old.bound (P.members plane.now) parts → ⊥)) }
{
    match only_parts(alloc, plane, known)? {
        Some(parts) => ash_if(alloc, plane, known, parts),
        None => Ok(None),
    }
}

/// The ash that a plane's cells are within the bound of `known`, if they are ash at all. After `ago` generations they become
/// ash of the parts `later`.
pub fn ash_before<P: Plane>(
    alloc: Global,
    plane: &P,
    known: &mut Known,
    later: Vec<Orbit>,
    ago: u32,
) -> Result<Option<Ash>, AllocError>
    requires young { P.steps_made plane.now ≤ ash_age_limit }
    requires ago { ago ≤ ash_age_limit }
    requires ash { IsAshThen known.old.rule known.old.bound (P.members plane.now) ago later.items }
    ensures some { IfOk result (λ found. IfSome found (λ ash.
        IsAsh known.old.rule known.old.bound (P.members plane.now) (sets_of ash))) }
    ensures rule { IfOk result
        (λ found. IfSome found (λ ash. All (IsCourseBy known.old.rule) ash)) }
    ensures none { IfOk result (λ found. IfNone found ((parts : List Generation) →
        IsAsh known.old.rule known.old.bound (P.members plane.now) parts → ⊥)) }
{
    if ago == 0 {
        return Ok(Some(Ash::of(later)));
    }
    match parts_before(alloc, plane, known, later.as_slice(), ago)? {
        Some(parts) => ash_if(alloc, plane, known, parts),
        None => Ok(None),
    }
}

/// The ash that a plane's cells are within the bound, if they are ash at all.
pub fn ash_of<P: Plane>(
    alloc: Global,
    plane: &P,
    rule: &Rule,
    bound: u32,
) -> Result<Option<Ash>, AllocError>
    requires bound { 1 ≤ bound × bound ≤ BOUND_LIMIT }
    requires young { P.steps_made plane.now ≤ ash_age_limit }
    ensures some { IfOk result (λ found. IfSome found (λ ash.
        IsAsh rule.now bound (P.members plane.now) (sets_of ash))) }
    ensures rule { IfOk result (λ found. IfSome found (λ ash. All (IsCourseBy rule.now) ash)) }
    ensures none { IfOk result (λ found. IfNone found ((parts : List Generation) →
        IsAsh rule.now bound (P.members plane.now) parts → ⊥)) }
{
    let mut known = Known::new(alloc, rule, bound);
    ash_by(alloc, plane, &mut known)
}
