//! Sets that recur.
ghost use Rattle.std.specs.Prelude.{◌≡◌, ◌<◌, ◌≤◌, All, IfNone, IfOk, IfSome};
ghost use Rattle.life_model.specs.Evolution.{generation};
ghost use Rattle.life_model.specs.Generation as generations;
ghost use Rattle.life_cells.specs.Limits.{IsWithin};
ghost use Rattle.life_objects.specs.Ash.{RecursWithin};
ghost use Rattle.life_orbit.specs.Course.{IsCourse};
ghost use Rattle.life_orbit.specs.Hulls.{IsHullOf};
ghost use Rattle.life_orbit.specs.Kept.{orbit_age_limit};

use crate::hull::{Hull, hull_of};
use crate::moving::moved_sets;
use crate::walk::{copied, next_list, offset};
use life_cells::{CellList, Rule, corner};
use life_plane::Plane;
use std::alloc::{AllocError, Global};
use std::marker::Model;

/// The greatest number of generations within which sets are checked for recurrence.
pub const BOUND_LIMIT: u32 = 100_000;

/// A set of cells that recurs: its generations over one period, its displacement after that, and a box around them.
#[derive(Drop)]
pub struct Orbit {
    rule: Rule,
    phases: Vec<CellList>,
    displacement: (i32, i32),
    hull: Hull,
}

impl Model for Orbit {
    ghost use Rattle.std.specs.Prelude.{All, length, slice_index_or};
    ghost use Rattle.life_model.specs.Generation.{empty};
    ghost use Rattle.life_orbit.specs.Course.{Course, coded_course};
    ghost use Rattle.life_orbit.specs.Hulls.{HoldsAllCells};
    ghost use Rattle.life_orbit.specs.Kept.{ArePhasesOfOrbit};

    ghost Value = { Course };

    ghost coded = { coded_course };

    ghost view = { λ o. record {
      rule = o.rule;
      set = slice_index_or o.phases.items 0 empty;
      period = length o.phases.items;
      displacement = o.displacement;
    } };

    ghost invariant = { λ o. ArePhasesOfOrbit o.rule
        (slice_index_or o.phases.items 0 empty) o.phases.items o.displacement
        × All (HoldsAllCells o.hull) o.phases.items };
}

impl Orbit {
    /// The orbit of a set, if it recurs within the bound.
    pub fn of<P: Plane>(
        alloc: Global,
        rule: &Rule,
        cells: &CellList,
        bound: u32,
    ) -> Result<Option<Orbit>, AllocError>
        requires bound { 1 ≤ bound × bound ≤ BOUND_LIMIT }
        requires within { All (IsWithin orbit_age_limit) (generations.cells cells.now) }
        ensures rule { IfOk result (λ found. IfSome found (λ orbit. orbit.rule ≡ rule.now)) }
        ensures set { IfOk result (λ found. IfSome found (λ orbit. orbit.set ≡ cells.now)) }
        ensures period { IfOk result (λ found. IfSome found (λ orbit. orbit.period ≤ bound)) }
        ensures recurs { IfOk result (λ found. IfSome found (λ orbit. IsCourse orbit)) }
        ensures none { IfOk result
            (λ found. IfNone found (RecursWithin rule.now bound cells.now → ⊥)) }
    {
        let mut phases = Vec::new(alloc);
        let mut phase = copied(alloc, cells)?;
        for taken in 0..bound {
            let next = next_list::<P>(alloc, rule, &phase)?;
            phases.push(phase)?;
            if let Some(displacement) = offset(cells, &next) {
                let hull = hull_of(corner(cells.as_slice()), phases.as_slice());
                return Ok(Some(Orbit {
                    rule: *rule,
                    phases,
                    displacement,
                    hull,
                }));
            }
            phase = next;
        }
        Ok(None)
    }

    /// The orbit of some cells, if they are the set moved as a whole and lists of cells can hold all its generations moved
    /// likewise.
    pub fn moved_to(&self, alloc: Global, cells: &CellList) -> Result<Option<Orbit>, AllocError>
        ensures rule { IfOk result (λ found. IfSome found (λ orbit. orbit.rule ≡ self.now.rule)) }
        ensures set { IfOk result (λ found. IfSome found (λ orbit. orbit.set ≡ cells.now)) }
        ensures period { IfOk result
            (λ found. IfSome found (λ orbit. orbit.period ≡ self.now.period)) }
        ensures recurs { IfOk result (λ found. IfSome found (λ orbit. IsCourse orbit)) }
    {
        let Some(by) = offset(self.set(), cells) else {
            return Ok(None);
        };
        let Some(phases) = moved_sets(alloc, self.phases.as_slice(), by)? else {
            return Ok(None);
        };
        let hull = hull_of(corner(cells.as_slice()), phases.as_slice());
        Ok(Some(Orbit {
            rule: self.rule,
            phases,
            displacement: self.displacement,
            hull,
        }))
    }

    /// The rule by which it evolves.
    pub fn rule(&self) -> Rule
        ensures { result ≡ self.now.rule }
    {
        self.rule
    }

    /// The set itself.
    pub fn set(&self) -> &CellList
        ensures { result.now ≡ self.now.set }
    {
        &self.phases[0]
    }

    /// The number of generations after which it first recurs.
    pub fn period(&self) -> u32
        ensures value { result ≡ self.now.period }
        ensures recurs { IsCourse self.now }
        ensures short { result ≤ BOUND_LIMIT }
    {
        self.phases.len() as u32
    }

    /// The displacement after a period.
    pub fn displacement(&self) -> (i32, i32)
        ensures { result ≡ self.now.displacement }
    {
        self.displacement
    }

    /// A box around all cells of its generations until it recurs.
    pub fn hull(&self) -> Hull
        ensures hull { IsHullOf result self.now }
        ensures recurs { IsCourse self.now }
    {
        self.hull
    }

    /// One of its generations before it recurs.
    pub fn phase(&self, n: u32) -> &CellList
        requires { n < self.now.period }
        ensures { result.now ≡ generation self.now.rule self.now.set n }
    {
        &self.phases[n as usize]
    }
}
