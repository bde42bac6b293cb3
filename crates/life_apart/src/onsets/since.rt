//! The generation since which any two of several sets that recur are apart.
ghost use Rattle.std.specs.Prelude.{◌≡◌, ℕ, ◌<◌, ◌≤◌, ◌↔◌, IsTrue, length};
ghost use Rattle.life_model.specs.Cell.{origin};
ghost use Rattle.life_model.specs.Rule.{Rule as ModelRule};
ghost use Rattle.life_apart.specs.Onsets.Pasts.{pasts};
ghost use Rattle.life_apart.specs.Onsets.Since.{AreAllApartSince, AreApartCourses, ArePlacesApartFrom, IsMoverApartFrom, IsNeeded, IsPlaceApartFrom};

use life_orbit::Orbit;

/// True if a set recurs without moving.
fn rests(orbit: &Orbit) -> bool
    ensures { IsTrue result ↔ (orbit.now.displacement ≡ origin) }
{
    orbit.displacement() == (0, 0)
}

/// The later of two generations.
fn later(one: u32, other: u32) -> u32
    ensures first { one ≤ result }
    ensures second { other ≤ result }
    ensures most { (n : ℕ) → one ≤ n → other ≤ n → result ≤ n }
{
    one.max(other)
}

/// The generation since which the sets at two places are apart, or 0 if the places are the same.
fn places_apart_since(parts: &[Orbit], place: usize, other: usize, age: u32) -> u32
    requires parts { (R : ModelRule) × AreApartCourses R parts.now }
    requires place { place < length parts.now }
    requires other { other < length parts.now }
    ensures apart { (R : ModelRule) → AreApartCourses R parts.now →
        ArePlacesApartFrom R age parts.now result place other }
    ensures needed { (R : ModelRule) → AreApartCourses R parts.now →
        IsNeeded R age parts.now result }
    ensures within { result ≤ age }
{
    if place == other {
        return 0;
    }
    parts[place].apart_since(&parts[other], age)
}

/// The generation since which a set is apart from all others.
fn place_apart_since(parts: &[Orbit], place: usize, age: u32) -> u32
    requires parts { (R : ModelRule) × AreApartCourses R parts.now }
    requires place { place < length parts.now }
    ensures apart { (R : ModelRule) → AreApartCourses R parts.now →
        IsPlaceApartFrom R age parts.now result place }
    ensures needed { (R : ModelRule) → AreApartCourses R parts.now →
        IsNeeded R age parts.now result }
    ensures within { result ≤ age }
{
    let mut since = 0;
    for other in 0..parts.len() {
        since = later(since, places_apart_since(parts, place, other, age));
    }
    since
}

/// The generation since which a set that moves is apart from all others, or 0 for a set that stays where it is.
fn mover_apart_since(parts: &[Orbit], place: usize, age: u32) -> u32
    requires parts { (R : ModelRule) × AreApartCourses R parts.now }
    requires place { place < length parts.now }
    ensures apart { (R : ModelRule) → AreApartCourses R parts.now →
        IsMoverApartFrom R age parts.now result place }
    ensures needed { (R : ModelRule) → AreApartCourses R parts.now →
        IsNeeded R age parts.now result }
    ensures within { result ≤ age }
{
    if rests(&parts[place]) {
        return 0;
    }
    place_apart_since(parts, place, age)
}

/// The first generation from which any two of the sets are apart for ever, if they are so at this age and each has
/// always recurred as it does now. Two sets that stay where they are have never been near.
pub fn all_apart_since(parts: &[Orbit], age: u32) -> u32
    requires { (R : ModelRule) × AreApartCourses R parts.now }
    ensures since { (R : ModelRule) → AreApartCourses R parts.now →
        AreAllApartSince R (pasts age parts.now) result }
    ensures within { result ≤ age }
{
    let mut since = 0;
    for place in 0..parts.len() {
        since = later(since, mover_apart_since(parts, place, age));
    }
    since
}
