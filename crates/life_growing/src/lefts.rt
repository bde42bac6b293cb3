//! The cores of a track as things, and the outcomes of the cells that leave along it.
ghost use Rattle.std.specs.Prelude.{◌≡◌, ℕ, ◌+◌, ◌<◌, ◌≤◌, All, IfNone, IfOk, IfSome, length};
ghost use Rattle.life_model.specs.Generation as generations;
ghost use Rattle.life_model.specs.Generation.{Generation};
ghost use Rattle.life_cells.specs.Limits.{IsWithin};
ghost use Rattle.life_ash.specs.Parts.{ash_age_limit};
ghost use Rattle.life_growth.specs.Engine.{FallsApart};
ghost use Rattle.life_growth.specs.Things.{core_thing};
ghost use Rattle.life_growing.specs.Settled.Things.{first_things};
ghost use Rattle.life_things.specs.Lattice.Short.{way_limit};
ghost use Rattle.life_things.specs.Ways.{IsFit, way_of as fit_way_of};
ghost use Rattle.life_tracks.specs.Tracks.{way_of};
ghost use Rattle.life_growing.specs.Emissions.{AreLefts};
ghost use Rattle.life_growing.specs.Places.{AreWithinAlong};

use crate::settling::{Settled, settled};
use life_cells::{CellList, Rule};
use life_plane::Plane;
use life_things::{Thing, WAY_LIMIT, Way, Ways};
use life_tracks::Track;
use std::alloc::{AllocError, Global};

/// The way in which a track's class comes back: its period in generations, and its displacement.
pub fn way_along(track: &Track) -> Way
    requires { IsFit ((way_of track.now).period, (way_of track.now).displacement) }
    ensures { fit_way_of result ≡ ((way_of track.now).period, (way_of track.now).displacement) }
{
    Way {
        generations: track.period() as u32,
        by: track.displacement(),
    }
}

/// The core before a step.
pub fn core_before(track: &Track, n: usize) -> &CellList
    requires { n ≤ (way_of track.now).period }
    ensures { result.now ≡ (way_of track.now).core n }
{
    if n == 0 {
        return track.start();
    }
    track.steps()[n - 1].core()
}

/// The cores of a track, each before a step, as things that recur after each period.
pub fn core_things(alloc: Global, track: &Track) -> Result<Vec<Thing>, AllocError>
    requires { IsFit ((way_of track.now).period, (way_of track.now).displacement) }
    ensures { IfOk result (λ things. things.items
        ≡ first_things (core_thing (way_of track.now)) (way_of track.now).period) }
{
    let way = way_along(track);
    let mut things = Vec::new(alloc);
    for n in 0..track.period() {
        let core = core_before(track, n);
        let cells = CellList::from_ordered(core.as_slice().to_vec(alloc)?);
        things.push(Thing::new(n as u32, cells, Ways::Once(way)))?;
    }
    Ok(things)
}

/// The outcomes of the cells that leave in each step of a track, if all of them fall apart within the bound. The
/// track's first core is of this age.
pub fn lefts_along<P: Plane>(
    alloc: Global,
    rule: &Rule,
    track: &Track,
    age: u32,
    bound: u32,
) -> Result<Option<Vec<Settled>>, AllocError>
    requires bound { 1 ≤ bound × bound ≤ WAY_LIMIT }
    requires short { (way_of track.now).period ≤ bound }
    requires age { (age + bound) + bound ≤ ash_age_limit }
    requires within { AreWithinAlong age (way_of track.now) }
    ensures some { IfOk result (λ found. IfSome found (λ lefts.
        AreLefts rule.now bound (way_of track.now) lefts.items)) }
    ensures none { IfOk result (λ found. IfNone found (((n : ℕ) → n < (way_of track.now).period →
        FallsApart rule.now bound ((way_of track.now).left n)) → ⊥)) }
{
    let mut lefts = Vec::new(alloc);
    for n in 0..track.period() {
        let left = track.steps()[n].left();
        match settled::<P>(alloc, rule, left, age + n as u32 + 1, bound)? {
            Some(it) => lefts.push(it)?,
            None => return Ok(None),
        }
    }
    Ok(Some(lefts))
}
