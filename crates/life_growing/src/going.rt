//! Deciding whether what leaves a track stays away for ever.
ghost use Rattle.std.specs.Prelude.{◌≡◌, ◌↔◌, ◌<◌, ◌≤◌, [], ◌∷◌, IfOk, IsTrue, length, map};
ghost use Rattle.life_growth.specs.Things.{NeverMeetAgain, a_period_later, core_thing, left_thing, listed};
ghost use Rattle.life_growing.specs.Settled.Things.{first_things};
ghost use Rattle.life_things.specs.Ways.{IsFit};
ghost use Rattle.life_tracks.specs.Tracks.{way_of};
ghost use Rattle.life_growing.specs.Emissions.{GoesAway, NoneMeets, things_left};

use crate::lefts::{core_things, way_along};
use crate::settling::Settled;
use life_things::Thing;
use life_tracks::Track;
use std::alloc::{AllocError, Global};

/// True if the thing never meets one of the others.
fn meets_none(thing: &Thing, others: &[Thing]) -> bool
    ensures { IsTrue result ↔ NoneMeets (thing.now ∷ []) others.now }
{
    for other in others {
        if !thing.never_meets(other) {
            return false;
        }
    }
    true
}

/// True if none of the things ever meets one of the others.
pub fn none_meets(things: &[Thing], others: &[Thing]) -> bool
    ensures { IsTrue result ↔ NoneMeets things.now others.now }
{
    for thing in things {
        if !meets_none(thing, others) {
            return false;
        }
    }
    true
}

/// The things that leave in step `k`, made to recur after each period: from the period of step `n` on, if `k` is
/// later than `n`, and otherwise from the next period on.
fn later_things(
    alloc: Global,
    track: &Track,
    lefts: &[Settled],
    n: usize,
    k: usize,
) -> Result<Vec<Thing>, AllocError>
    requires count { length lefts.now ≡ (way_of track.now).period }
    requires fit { IsFit ((way_of track.now).period, (way_of track.now).displacement) }
    requires step { k < length lefts.now }
    ensures later { IfOk result (λ things. n < k →
        things.items ≡ map (left_thing (way_of track.now) k) (things_left lefts.now k)) }
    ensures again { IfOk result (λ things. k ≤ n → things.items
        ≡ map (a_period_later (way_of track.now)) (map (left_thing (way_of track.now) k) (things_left lefts.now k))) }
{
    let way = way_along(track);
    if n < k {
        return lefts[k].things(alloc, k as u32 + 1, (0, 0), Some(way));
    }
    lefts[k].things(alloc, k as u32 + 1 + way.generations, way.by, Some(way))
}

/// True if the things that leave in a step never meet the cores, nor any that leave later.
fn goes_away(
    alloc: Global,
    track: &Track,
    lefts: &[Settled],
    cores: &[Thing],
    n: usize,
) -> Result<bool, AllocError>
    requires count { length lefts.now ≡ (way_of track.now).period }
    requires fit { IsFit ((way_of track.now).period, (way_of track.now).displacement) }
    requires cores { cores.now ≡ first_things (core_thing (way_of track.now)) (way_of track.now).period }
    requires step { n < length lefts.now }
    ensures { IfOk result (λ does. IsTrue does ↔ GoesAway (way_of track.now) lefts.now n) }
{
    let once = lefts[n].things(alloc, n as u32 + 1, (0, 0), None)?;
    if !none_meets(once.as_slice(), cores) {
        return Ok(false);
    }
    for k in 0..lefts.len() {
        let others = later_things(alloc, track, lefts, n, k)?;
        if !none_meets(once.as_slice(), others.as_slice()) {
            return Ok(false);
        }
    }
    Ok(true)
}

/// True if the things that leave in the steps of a track never meet the cores again, nor any that leave later.
pub fn leave_for_ever(alloc: Global, track: &Track, lefts: &[Settled]) -> Result<bool, AllocError>
    requires count { length lefts.now ≡ (way_of track.now).period }
    requires fit { IsFit ((way_of track.now).period, (way_of track.now).displacement) }
    ensures { IfOk result (λ go. IsTrue go
        ↔ NeverMeetAgain (way_of track.now) (listed (things_left lefts.now))) }
{
    let cores = core_things(alloc, track)?;
    for n in 0..lefts.len() {
        if !goes_away(alloc, track, lefts, cores.as_slice(), n)? {
            return Ok(false);
        }
    }
    Ok(true)
}
