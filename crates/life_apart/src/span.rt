//! The bands of rows in which sets that recur stay.
ghost use Rattle.std.specs.Prelude.{◌≡◌, ℕ, ◌<◌, ◌^◌, ◌↔◌, All, IfOk, IsTrue, OnOk, pos, ◌+ℤ◌};
ghost use Rattle.std.specs.List.{Contains};
ghost use Rattle.life_model.specs.Cell.{origin};
ghost use Rattle.life_apart.specs.Spans.{AreRisingSpans, AreSpans, HasBands, HasSpans, IsBandOf, IsPlacedIn, span_at};

use life_orbit::{Hull, Orbit};
use std::alloc::{AllocError, Global};

/// A set that stays where it is, in one band of rows: the band, the first and the last column of the set, and its
/// place in a list.
#[derive(Clone, Copy)]
pub struct Span {
    pub band: u32,
    pub start: i32,
    pub end: i32,
    pub place: usize,
}

/// The band of the first row of a box. Each band has 64 rows.
fn first_band(hull: Hull) -> u32
    ensures { IsBandOf hull.top result }
{
    let from_least = (hull.top as i64 + 4_294_967_296) as u64;
    (from_least / 64) as u32
}

/// The band of the second row after the last of a box.
fn last_band(hull: Hull) -> u32
    ensures band { IsBandOf (hull.bottom +ℤ pos 2) result }
    ensures few { result < 2 ^ 28 }
{
    let from_least = (hull.bottom as i64 + 4_294_967_298) as u64;
    (from_least / 64) as u32
}

/// The span of a place in one band.
fn span_at(hull: Hull, place: usize, band: u32) -> Span
    ensures { result ≡ span_at hull place band }
{
    Span {
        band,
        start: hull.left,
        end: hull.right,
        place,
    }
}

/// True if a set recurs without moving.
pub fn rests(orbit: &Orbit) -> bool
    ensures { IsTrue result ↔ (orbit.now.displacement ≡ origin) }
{
    orbit.displacement() == (0, 0)
}

/// Adds a span for each band from that of the first row of a box to that of the second row after its last.
fn add_bands(spans: &mut Vec<Span>, hull: Hull, place: usize) -> Result<(), AllocError>
    ensures kept { (s : Span) → Contains spans.old.items s → Contains spans.new.items s }
    ensures placed { (n : ℕ) → place < n → All (IsPlacedIn n) spans.old.items →
        All (IsPlacedIn n) spans.new.items }
    ensures bands { OnOk result (HasBands spans.new.items hull place) }
{
    let first = first_band(hull);
    let last = last_band(hull);
    for band in first..last + 1 {
        spans.push(span_at(hull, place, band))?;
    }
    Ok(())
}

/// Adds the spans of a set, if it stays where it is.
fn add_spans(spans: &mut Vec<Span>, orbit: &Orbit, place: usize) -> Result<(), AllocError>
    ensures kept { (s : Span) → Contains spans.old.items s → Contains spans.new.items s }
    ensures placed { (n : ℕ) → place < n → All (IsPlacedIn n) spans.old.items →
        All (IsPlacedIn n) spans.new.items }
    ensures spans { OnOk result
        (orbit.now.displacement ≡ origin → HasSpans spans.new.items orbit.now place) }
{
    if !rests(orbit) {
        return Ok(());
    }
    add_bands(spans, orbit.hull(), place)
}

/// The spans of the sets that stay where they are.
fn spans_of(alloc: Global, orbits: &[Orbit]) -> Result<Vec<Span>, AllocError>
    ensures { IfOk result (λ spans. AreSpans orbits.now spans.items) }
{
    let mut spans = Vec::new(alloc);
    for n in 0..orbits.len() {
        add_spans(&mut spans, &orbits[n], n)?;
    }
    Ok(spans)
}

/// The spans of the sets that stay where they are, band after band, and in each band ordered by their first columns.
pub fn spans_in_order(alloc: Global, orbits: &[Orbit]) -> Result<Vec<Span>, AllocError>
    ensures spans { IfOk result (λ spans. AreSpans orbits.now spans.items) }
    ensures rising { IfOk result (λ spans. AreRisingSpans spans.items) }
{
    let mut spans = spans_of(alloc, orbits)?;
    spans.sort_unstable_by_key(|span| (span.band, span.start));
    Ok(spans)
}
