//! Engines.
ghost use Rattle.std.specs.Prelude.{◌≡◌, ◌≤◌, IfOk, length};
ghost use Rattle.life_things.specs.Ways.{IsFit};
ghost use Rattle.life_things.specs.Lattice.Short.{way_limit};
ghost use Rattle.life_tracks.specs.Tracks.{way_of};
ghost use Rattle.life_growing.specs.Emissions.{AreAll, IsEmissionThing};

use crate::lefts::{core_things, way_along};
use crate::settling::Settled;
use life_things::Thing;
use life_tracks::Track;
use std::alloc::{AllocError, Global};
use std::marker::Model;

/// An engine: the track along which it comes back, and the outcome of the cells that leave in each step.
#[derive(Drop)]
pub struct Engine {
    track: Track,
    lefts: Vec<Settled>,
}

impl Model for Engine {
    ghost use Rattle.std.specs.Prelude.{◌≡◌, ◌≤◌, length};
    ghost use Rattle.life_things.specs.Lattice.Short.{way_limit};
    ghost use Rattle.life_things.specs.Ways.{IsFit};
    ghost use Rattle.life_tracks.specs.Tracks.{way_of};
    ghost use Rattle.life_growing.specs.Emissions.{Emission, coded_emission};

    ghost Value = { Emission };

    ghost coded = { coded_emission };

    ghost view = { λ e. record { path = e.track; lefts = e.lefts.items } };

    ghost invariant = { λ e. (length e.lefts.items ≡ (way_of e.track).period)
        × IsFit ((way_of e.track).period, (way_of e.track).displacement) };
}

impl Engine {
    /// An engine that comes back along a track. `lefts` are the outcomes of the cells that leave in each step.
    pub fn of(track: Track, lefts: Vec<Settled>) -> Engine
        requires count { length lefts.items ≡ (way_of track).period }
        requires fit { IsFit ((way_of track).period, (way_of track).displacement) }
        ensures path { result.path ≡ track }
        ensures lefts { result.lefts ≡ lefts.items }
    {
        Engine { track, lefts }
    }

    /// The track along which it comes back.
    pub fn track(&self) -> &Track
        ensures { result.now ≡ self.now.path }
    {
        &self.track
    }

    /// The outcomes of the cells that leave in each step.
    pub fn lefts(&self) -> &[Settled]
        ensures { result.now ≡ self.now.lefts }
    {
        self.lefts.as_slice()
    }

    /// Its things: the cores, and the things that the cells leaving in each step become.
    pub fn things(&self, alloc: Global) -> Result<Vec<Thing>, AllocError>
        ensures { IfOk result (λ things. AreAll things.items (IsEmissionThing self.now)) }
    {
        let way = way_along(&self.track);
        let mut all = core_things(alloc, &self.track)?;
        for n in 0..self.lefts.len() {
            let mut things = self.lefts[n].things(alloc, n as u32 + 1, (0, 0), Some(way))?;
            all.append(&mut things)?;
        }
        Ok(all)
    }
}
