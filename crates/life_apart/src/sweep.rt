//! Comparing sets that recur: those that stay where they are band by band.
ghost use Rattle.std.specs.Prelude.{◌<◌, ◌↔◌, All, AllPairs, IsTrue, length};
ghost use Rattle.std.specs.Bool.{OnTrue};
ghost use Rattle.life_model.specs.Rule.{Rule as ModelRule};
ghost use Rattle.life_objects.specs.Apart.{AreApartForEver};
ghost use Rattle.life_apart.specs.Sets.{IsCourseBy, sets_of};
ghost use Rattle.life_apart.specs.Spans.{AreApartInOrder, AreMoversApart, ArePlacesApart, AreRisingSpans, AreSpans, IsApartFromLater, IsApartFromOthers, IsPast, IsPlacedIn, IsStillOrApart};

use crate::span::{Span, rests};
use life_orbit::Orbit;

/// True if the sets at two places stay apart for ever, or the places are the same.
fn are_places_apart(orbits: &[Orbit], first: usize, second: usize) -> bool
    requires rule { (R : ModelRule) × All (IsCourseBy R) orbits.now }
    requires first { first < length orbits.now }
    requires second { second < length orbits.now }
    ensures { (R : ModelRule) → All (IsCourseBy R) orbits.now →
        IsTrue result ↔ ArePlacesApart R orbits.now first second }
{
    if first == second {
        return true;
    }
    orbits[first].is_apart_for_ever_from(&orbits[second])
}

/// True if a set stays apart for ever from all others.
fn is_apart_from_others(orbits: &[Orbit], place: usize) -> bool
    requires rule { (R : ModelRule) × All (IsCourseBy R) orbits.now }
    requires place { place < length orbits.now }
    ensures { (R : ModelRule) → All (IsCourseBy R) orbits.now →
        IsTrue result ↔ IsApartFromOthers R orbits.now place }
{
    for other in 0..orbits.len() {
        if !are_places_apart(orbits, place, other) {
            return false;
        }
    }
    true
}

/// True if a set stays where it is, or apart for ever from all others.
fn rests_or_is_apart(orbits: &[Orbit], place: usize) -> bool
    requires rule { (R : ModelRule) × All (IsCourseBy R) orbits.now }
    requires place { place < length orbits.now }
    ensures apart { (R : ModelRule) → All (IsCourseBy R) orbits.now → IsTrue result →
        IsStillOrApart R orbits.now place }
    ensures found { (R : ModelRule) → All (IsCourseBy R) orbits.now →
        AllPairs (AreApartForEver R) (sets_of orbits.now) → IsTrue result }
{
    if rests(&orbits[place]) {
        return true;
    }
    is_apart_from_others(orbits, place)
}

/// True if each set that moves stays apart for ever from all others.
fn are_movers_apart(orbits: &[Orbit]) -> bool
    requires rule { (R : ModelRule) × All (IsCourseBy R) orbits.now }
    ensures apart { (R : ModelRule) → All (IsCourseBy R) orbits.now → IsTrue result →
        AreMoversApart R orbits.now }
    ensures found { (R : ModelRule) → All (IsCourseBy R) orbits.now →
        AllPairs (AreApartForEver R) (sets_of orbits.now) → IsTrue result }
{
    for place in 0..orbits.len() {
        if !rests_or_is_apart(orbits, place) {
            return false;
        }
    }
    true
}

/// True if `other` is in a later band, or begins more than two columns after the end of `span`.
fn is_past(span: Span, other: Span) -> bool
    ensures { OnTrue result (IsPast span other) }
{
    if span.band < other.band {
        return true;
    }
    if span.end as i64 + 2 < other.start as i64 {
        return true;
    }
    false
}

/// True if the set of a span stays apart for ever from those of the later spans that are near it.
fn is_apart_from_later(orbits: &[Orbit], spans: &[Span], n: usize) -> bool
    requires rule { (R : ModelRule) × All (IsCourseBy R) orbits.now }
    requires placed { All (IsPlacedIn (length orbits.now)) spans.now }
    requires rising { AreRisingSpans spans.now }
    requires within { n < length spans.now }
    ensures apart { (R : ModelRule) → All (IsCourseBy R) orbits.now → IsTrue result →
        IsApartFromLater R orbits.now spans.now n }
    ensures found { (R : ModelRule) → All (IsCourseBy R) orbits.now →
        AllPairs (AreApartForEver R) (sets_of orbits.now) → IsTrue result }
{
    for other in n + 1..spans.len() {
        if is_past(spans[n], spans[other]) {
            return true;
        }
        if !are_places_apart(orbits, spans[n].place, spans[other].place) {
            return false;
        }
    }
    true
}

/// True if any two sets with spans that are near each other stay apart for ever.
fn are_apart_in_order(orbits: &[Orbit], spans: &[Span]) -> bool
    requires rule { (R : ModelRule) × All (IsCourseBy R) orbits.now }
    requires spans { AreSpans orbits.now spans.now }
    requires rising { AreRisingSpans spans.now }
    ensures apart { (R : ModelRule) → All (IsCourseBy R) orbits.now → IsTrue result →
        AreApartInOrder R orbits.now spans.now }
    ensures found { (R : ModelRule) → All (IsCourseBy R) orbits.now →
        AllPairs (AreApartForEver R) (sets_of orbits.now) → IsTrue result }
{
    for n in 0..spans.len() {
        if !is_apart_from_later(orbits, spans, n) {
            return false;
        }
    }
    true
}

/// True if any two of the sets stay apart for ever. `spans` are the spans of those that stay where they are. Each set
/// that moves is compared with all others.
pub fn are_apart_by_bands(orbits: &[Orbit], spans: &[Span]) -> bool
    requires rule { (R : ModelRule) × All (IsCourseBy R) orbits.now }
    requires spans { AreSpans orbits.now spans.now }
    requires rising { AreRisingSpans spans.now }
    ensures { (R : ModelRule) → All (IsCourseBy R) orbits.now →
        IsTrue result ↔ AllPairs (AreApartForEver R) (sets_of orbits.now) }
{
    if !are_movers_apart(orbits) {
        return false;
    }
    are_apart_in_order(orbits, spans)
}
