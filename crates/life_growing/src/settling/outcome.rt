//! The ash that a set falls apart into.
ghost use Rattle.std.specs.Prelude.{◌≡◌, ◌++◌, ◌≤◌, All, IfOk, OnOk, length, map};
ghost use Rattle.life_cells.specs.Limits.{IsWithin};
ghost use Rattle.life_orbit.specs.Course.{IsCourse};
ghost use Rattle.life_things.specs.Lattice.Short.{way_limit};
ghost use Rattle.life_ash.specs.Parts.{IsPlaced};
ghost use Rattle.life_growing.specs.Settled.Placing.{IsFitWay, IsNearby, IsPlacing, placed_by, ways_of_one};
ghost use Rattle.life_growing.specs.Settled.Settling.{AreShortParts, HasFitWay, IsInField};
ghost use Rattle.life_growing.specs.Settled.Things.{early_things, phase_things, placed, things_of};

use crate::settling::placing::{DELAY_LIMIT, Placing};
use life_ash::Ash;
use life_cells::CellList;
use life_orbit::Orbit;
use life_things::{Thing, Way};
use std::alloc::{AllocError, Global};
use std::marker::Model;

/// A set that falls apart: its generations before it is ash, and the orbits of the parts of that ash.
#[derive(Drop)]
pub struct Settled {
    early: Vec<CellList>,
    ash: Ash,
}

impl Model for Settled {
    ghost use Rattle.life_growing.specs.Settled.Settling.{IsKept, Settling, coded_settling};

    ghost Value = { Settling };

    ghost coded = { coded_settling };

    ghost view = { λ s. record { early = s.early.items; parts = s.ash } };

    ghost invariant = { λ s. IsKept (record { early = s.early.items; parts = s.ash }) };
}

/// Adds the generations before ash, as things that are placed.
fn add_early(
    alloc: Global,
    all: &mut Vec<Thing>,
    early: &[CellList],
    placing: Placing,
) -> Result<(), AllocError>
    requires few { length early.now ≤ way_limit }
    requires within { All IsInField early.now }
    requires placing { IsPlacing placing }
    ensures { OnOk result (all.new.items ≡ all.old.items
        ++ map (placed_by placing) (early_things early.now)) }
{
    for n in 0..early.len() {
        let thing = placing.thing(alloc, n as u32, &early[n], None)?;
        all.push(thing)?;
    }
    Ok(())
}

/// Adds the phases of a part that is there from the generation `since` on, as things that are placed.
fn add_phases(
    alloc: Global,
    all: &mut Vec<Thing>,
    since: u32,
    part: &Orbit,
    placing: Placing,
) -> Result<(), AllocError>
    requires since { since ≤ way_limit }
    requires within { IsPlaced part.now }
    requires way { HasFitWay part.now }
    requires placing { IsPlacing placing }
    ensures { OnOk result (all.new.items ≡ all.old.items
        ++ map (placed_by placing) (phase_things since part.now)) }
{
    let way = Way {
        generations: part.period(),
        by: part.displacement(),
    };
    for m in 0..part.period() {
        let thing = placing.thing(alloc, since + m, part.phase(m), Some(way))?;
        all.push(thing)?;
    }
    Ok(())
}

impl Settled {
    /// A set that falls apart after these generations into this ash.
    pub(crate) fn of(early: Vec<CellList>, ash: Ash) -> Settled
        requires few { length early.items ≤ way_limit }
        requires within { All IsInField early.items }
        requires parts { AreShortParts ash }
        ensures early { result.early ≡ early.items }
        ensures parts { result.parts ≡ ash }
        ensures courses { All IsCourse result.parts }
    {
        // Each part recurs in this way, and not earlier.
        let _ = ash.orbits();
        Settled { early, ash }
    }

    /// Its generations before it is ash.
    pub fn early(&self) -> &[CellList]
        ensures { result.now ≡ self.now.early }
    {
        self.early.as_slice()
    }

    /// The orbits of the parts of its ash.
    pub fn parts(&self) -> &[Orbit]
        ensures value { result.now ≡ self.now.parts }
        ensures courses { All IsCourse result.now }
    {
        self.ash.orbits()
    }

    /// Its things, `time` generations later, which is up to `DELAY_LIMIT`, moved by no more than 10,000 along each axis, and
    /// with `way`, if there is one, before each one's own.
    pub fn things(
        &self,
        alloc: Global,
        time: u32,
        by: (i32, i32),
        way: Option<Way>,
    ) -> Result<Vec<Thing>, AllocError>
        requires time { time ≤ DELAY_LIMIT }
        requires by { IsNearby by }
        requires way { IsFitWay way }
        ensures { IfOk result (λ all. all.items ≡ map (placed time by (ways_of_one way)) (things_of self.now)) }
    {
        let placing = Placing { time, by, way };
        let early = self.early.as_slice();
        let since = early.len() as u32;
        let orbits = self.ash.orbits();
        let mut all = Vec::new(alloc);
        add_early(alloc, &mut all, early, placing)?;
        for part in orbits {
            add_phases(alloc, &mut all, since, part, placing)?;
        }
        Ok(all)
    }
}
