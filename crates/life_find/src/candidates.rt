//! The periods and onsets that the fingerprints of the generations so far leave possible.
ghost use Rattle.std.specs.Prelude.{◌≡◌, ℕ, ◌+◌, ◌<◌, ◌≤◌, true, false, IfOk};
ghost use Rattle.std.specs.List.{filter, range_with_len};
ghost use Rattle.life_find.specs.Search.{changes_at, ends_alike, from_first};

use crate::fingerprint::{Fingerprint, may_match};
use std::alloc::{AllocError, Global};

/// True where the last fingerprint agrees with the one `places` places before it.
fn ends_alike(fingerprints: &[Fingerprint], places: u32) -> bool
    ensures { result ≡ ends_alike fingerprints.now places }
{
    let count = fingerprints.len();
    let places = places as usize;
    if places >= count {
        return false;
    }
    may_match(fingerprints[count - 1 - places], fingerprints[count - 1])
}

/// The periods from 1 to the bound that the last fingerprint leaves possible: the fingerprint that many places before it agrees
/// with it.
pub fn candidates(
    alloc: Global,
    fingerprints: &[Fingerprint],
    bound: u32,
) -> Result<Vec<u32>, AllocError>
    requires { bound < u32.MAX }
    ensures { IfOk result
        (λ periods. periods.items ≡ filter (ends_alike fingerprints.now) (range_with_len 1 bound)) }
{
    let mut periods = Vec::new(alloc);
    for period in 1..bound + 1 {
        if ends_alike(fingerprints, period) {
            periods.push(period)?;
        }
    }
    Ok(periods)
}

/// Strikes out the periods before the first that the last fingerprint leaves possible. Those after it are not examined. As the
/// walk goes on, each period is struck out at most once, and one comparison a generation shows that none was. So there are no
/// more comparisons in all than generations and periods.
pub fn strike_periods<'a>(periods: &'a [u32], fingerprints: &[Fingerprint]) -> &'a [u32]
    ensures { result.now ≡ from_first (ends_alike fingerprints.now) periods.now }
{
    let mut left = periods;
    'left: while let [period, rest @ ..] = left {
        if ends_alike(fingerprints, *period) {
            return left;
        }
        left = rest;
    }
    left
}

/// True where the fingerprint `places` places further on disagrees.
fn changes(fingerprints: &[Fingerprint], places: u32, at: u32) -> bool
    ensures { result ≡ changes_at fingerprints.now places at }
{
    let here = at as usize;
    let there = here + places as usize;
    if there >= fingerprints.len() {
        return false;
    }
    !may_match(fingerprints[here], fingerprints[there])
}

/// One more than the last place at which the fingerprint `places` places further on disagrees, or 0.
pub fn first_alike(fingerprints: &[Fingerprint], places: u32, last: u32) -> u32
    requires { last < u32.MAX }
    ensures end { result ≤ last + 1 }
    ensures change { (i : ℕ) → result ≡ i + 1 → changes_at fingerprints.now places i ≡ true }
    ensures rest { (i : ℕ) → result ≤ i → i ≤ last → changes_at fingerprints.now places i ≡ false }
{
    let known = fingerprints.len().saturating_sub(places as usize);
    let mut end = known.min(last as usize + 1) as u32;
    'places: while end > 0 {
        if changes(fingerprints, places, end - 1) {
            return end;
        }
        end -= 1;
    }
    0
}
