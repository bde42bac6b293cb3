//! Known sets. A set that is one of them, moved as a whole, is not followed again.
ghost use Rattle.std.specs.Prelude.{◌≡◌, ◌≤◌, All, IfNone, IfOk, IfSome};
ghost use Rattle.life_model.specs.Generation as generations;
ghost use Rattle.life_cells.specs.Limits.{IsWithin};
ghost use Rattle.life_objects.specs.Ash.{RecursWithin};
ghost use Rattle.life_orbit.specs.Course.{IsCourse};
ghost use Rattle.life_orbit.specs.Kept.{orbit_age_limit};
ghost use Rattle.life_ash.specs.Met.{IsMet, Terms};

use life_cells::{CellList, Rule};
use life_orbit::{BOUND_LIMIT, Orbit};
use life_plane::Plane;
use std::alloc::{AllocError, Global};
use std::marker::Model;

/// The greatest number of orbits that are kept.
const MOST: usize = 64;

/// The greatest period of an orbit that is kept.
const LONGEST: u32 = 64;

/// The greatest number of cells of a set that is kept.
const LARGEST: usize = 256;

/// Orbits of sets that recur by one rule within one bound. Each is right, but not all that were found are kept.
#[derive(Drop)]
pub struct Known {
    rule: Rule,
    bound: u32,
    orbits: Vec<Orbit>,
}

impl Model for Known {
    ghost use Rattle.life_ash.specs.Met.{AreKnown, Terms, coded_terms};

    ghost Value = { Terms };

    ghost coded = { coded_terms };

    ghost view = { λ k. record { rule = k.rule; bound = k.bound } };

    ghost invariant = { λ k. AreKnown (record { rule = k.rule; bound = k.bound }) k.orbits.items };
}

/// The orbit of a set that is one of these sets, moved as a whole. `None` means nothing.
fn moved_orbit(
    alloc: Global,
    orbits: &[Orbit],
    cells: &CellList,
) -> Result<Option<Orbit>, AllocError>
    ensures set { IfOk result (λ found. IfSome found (λ orbit. orbit.set ≡ cells.now)) }
    ensures met { (t : Terms) → All (IsMet t) orbits.now →
        IfOk result (λ found. IfSome found (IsMet t)) }
{
    for orbit in orbits {
        if let Some(found) = orbit.moved_to(alloc, cells)? {
            return Ok(Some(found));
        }
    }
    Ok(None)
}

/// Keeps an orbit, if it is small and there is room for it.
fn keep(alloc: Global, orbits: &mut Vec<Orbit>, orbit: &Orbit) -> Result<(), AllocError>
    ensures { (t : Terms) → All (IsMet t) orbits.old.items → IsMet t orbit.now →
        All (IsMet t) orbits.new.items }
{
    if orbits.len() < MOST && orbit.period() <= LONGEST && orbit.set().len() <= LARGEST {
        if let Some(copy) = orbit.moved_to(alloc, orbit.set())? {
            orbits.push(copy)?;
        }
    }
    Ok(())
}

impl Known {
    /// No orbits yet, of sets that recur by this rule within `bound` generations.
    pub fn new(alloc: Global, rule: &Rule, bound: u32) -> Known
        requires { 1 ≤ bound × bound ≤ BOUND_LIMIT }
        ensures rule { result.rule ≡ rule.now }
        ensures bound { result.bound ≡ bound }
    {
        Known {
            rule: *rule,
            bound,
            orbits: Vec::new(alloc),
        }
    }

    /// The number of generations within which the sets recur.
    pub fn bound(&self) -> u32
        ensures value { result ≡ self.now.bound }
        ensures some { 1 ≤ result }
        ensures short { result ≤ BOUND_LIMIT }
    {
        self.bound
    }

    /// The rule by which the sets recur.
    pub fn rule(&self) -> Rule
        ensures { result ≡ self.now.rule }
    {
        self.rule
    }

    /// The orbit of a set, if it recurs within `tried` generations, which are no more than the bound. It is computed if no
    /// orbit of this set, moved as a whole, is kept; one that is kept may have a longer period, but within the bound.
    pub fn orbit_of<P: Plane>(
        &mut self,
        alloc: Global,
        cells: &CellList,
        tried: u32,
    ) -> Result<Option<Orbit>, AllocError>
        requires some { 1 ≤ tried }
        requires most { tried ≤ self.now.bound }
        requires within { All (IsWithin orbit_age_limit) (generations.cells cells.now) }
        ensures same { self.new ≡ self.old }
        ensures set { IfOk result (λ found. IfSome found (λ orbit. orbit.set ≡ cells.now)) }
        ensures met { IfOk result (λ found. IfSome found (IsMet self.old)) }
        ensures none { IfOk result
            (λ found. IfNone found (RecursWithin self.old.rule tried cells.now → ⊥)) }
    {
        if let Some(orbit) = moved_orbit(alloc, &self.orbits, cells)? {
            return Ok(Some(orbit));
        }
        let Some(orbit) = Orbit::of::<P>(alloc, &self.rule, cells, tried)? else {
            return Ok(None);
        };
        keep(alloc, &mut self.orbits, &orbit)?;
        Ok(Some(orbit))
    }
}
