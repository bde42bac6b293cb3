//! Deciding whether a class of a film that comes back is an engine.
ghost use Rattle.std.specs.Prelude.{◌≡◌, ◌≢◌, ◌↔◌, ℕ, ◌+◌, ◌<◌, ◌≤◌, [], IfNone, IfOk, IfSome, IsTrue, length};
ghost use Rattle.life_ash.specs.Parts.{ash_age_limit};
ghost use Rattle.life_growth.specs.Engine.{IsEngine};
ghost use Rattle.life_tracks.specs.Tracks.{ComesBack, way_of};
ghost use Rattle.life_growing.specs.Emissions.{IsEmission, left_at};
ghost use Rattle.life_growing.specs.Places.{AreWithinAlong};

use crate::emission::Engine;
use crate::going::leave_for_ever;
use crate::lefts::lefts_along;
use crate::settling::Settled;
use crate::whole::are_whole;
use life_cells::Rule;
use life_plane::Plane;
use life_things::WAY_LIMIT;
use life_tracks::Track;
use std::alloc::{AllocError, Global};

/// True if something that leaves lasts for ever.
fn emit(lefts: &[Settled]) -> bool
    ensures { IsTrue result ↔ ((n : ℕ) × (n < length lefts.now) × ((left_at lefts.now n).parts ≢ [])) }
{
    for left in lefts {
        if !left.parts().is_empty() {
            return true;
        }
    }
    false
}

/// The engine within the bound that goes along a track, if there is one. The track's class comes back in a film of this
/// length, and is of this age.
pub fn engine_along<P: Plane>(
    alloc: Global,
    rule: &Rule,
    track: Track,
    age: u32,
    length: u32,
    bound: u32,
) -> Result<Option<Engine>, AllocError>
    requires bound { 1 ≤ bound × bound ≤ WAY_LIMIT }
    requires age { (age + bound) + bound ≤ ash_age_limit }
    requires back { ComesBack rule.now length track.start (way_of track) }
    requires within { AreWithinAlong age (way_of track) }
    ensures path { IfOk result (λ found. IfSome found (λ engine. engine.path ≡ track)) }
    ensures some { IfOk result (λ found. IfSome found (IsEmission rule.now bound track.start)) }
    ensures none { IfOk result (λ found. IfNone found
        (IsEngine rule.now bound track.start (way_of track) → ⊥)) }
{
    if track.period() > bound as usize {
        return Ok(None);
    }
    if length > bound && !are_whole::<P>(alloc, rule, &track, age, bound)? {
        return Ok(None);
    }
    let Some(lefts) = lefts_along::<P>(alloc, rule, &track, age, bound)? else {
        return Ok(None);
    };
    if !emit(lefts.as_slice()) {
        return Ok(None);
    }
    if !leave_for_ever(alloc, &track, lefts.as_slice())? {
        return Ok(None);
    }
    Ok(Some(Engine::of(track, lefts)))
}
