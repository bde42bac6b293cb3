//! The places by which one set can be moved to be near another.
ghost use Rattle.std.specs.Prelude.{◌≡◌, ◌≢◌, ℕ, ◌+◌, ◌<◌, ◌≤◌, ◌^◌, ◌↔◌, IfNone, IfSome, IsTrue, ℤ, pos, ◌*ℤ◌, ◌≤ℤ◌};
ghost use Rattle.life_model.specs.Cell.{Cell};
ghost use Rattle.life_model.specs.Generation.{Generation};
ghost use Rattle.life_growth.specs.Meeting.Sums.{and_then, times};
ghost use Rattle.life_orbit.specs.Hulls.{HoldsAllCells};
ghost use Rattle.life_growth.specs.Relations.Relations.{product};
ghost use Rattle.life_things.specs.Fields.{IsFieldOf, IsInField, IsNarrow};
ghost use Rattle.life_things.specs.Lattice.Short.{AreShort, IsShort, IsWithin};

use crate::lattice::{Span, Step, multiplied, product, span_to};
use life_orbit::Hull;

/// The places from one column to another and from one row to another.
#[derive(Clone, Copy)]
pub struct Field {
    pub left: i128,
    pub right: i128,
    pub top: i128,
    pub bottom: i128,
}

/// The places by which a set can be moved to be near the other, by the boxes of both.
pub fn field_of(hull: Hull, other: Hull) -> Field
    ensures narrow { IsNarrow result }
    ensures field { (P Q : Generation) → HoldsAllCells hull P → HoldsAllCells other Q → IsFieldOf result P Q }
{
    Field {
        left: other.left as i128 - hull.right as i128 - 2,
        right: other.right as i128 - hull.left as i128 + 2,
        top: other.top as i128 - hull.bottom as i128 - 2,
        bottom: other.bottom as i128 - hull.top as i128 + 2,
    }
}

/// True if a place is in the field.
pub fn has_place(field: Field, place: (i128, i128)) -> bool
    ensures { IsTrue result ↔ IsInField field place }
{
    if place.0 < field.left {
        return false;
    }
    if place.0 > field.right {
        return false;
    }
    if place.1 < field.top {
        return false;
    }
    if place.1 > field.bottom {
        return false;
    }
    true
}

/// The least product of `factor` and a number from `first` to `last`.
fn least_times(factor: i128, first: i128, last: i128) -> i128
    requires factor { IsWithin (2 ^ 28) factor }
    requires first { IsWithin (2 ^ 34) first }
    requires last { IsWithin (2 ^ 34) last }
    ensures least { (x : ℤ) → first ≤ℤ x → x ≤ℤ last → result ≤ℤ (factor *ℤ x) }
    ensures within { IsWithin (2 ^ 62) result }
{
    if factor < 0 {
        return multiplied(factor, last);
    }
    multiplied(factor, first)
}

/// The greatest product of `factor` and a number from `first` to `last`.
fn most_times(factor: i128, first: i128, last: i128) -> i128
    requires factor { IsWithin (2 ^ 28) factor }
    requires first { IsWithin (2 ^ 34) first }
    requires last { IsWithin (2 ^ 34) last }
    ensures most { (x : ℤ) → first ≤ℤ x → x ≤ℤ last → (factor *ℤ x) ≤ℤ result }
    ensures within { IsWithin (2 ^ 62) result }
{
    if factor < 0 {
        return multiplied(factor, first);
    }
    multiplied(factor, last)
}

/// The least product of the gauge with a place of the field.
fn least_product(gauge: Step, field: Field) -> i128
    requires gauge { IsShort (2 ^ 28) gauge }
    requires field { IsNarrow field }
    ensures least { (d : Cell) → IsInField field d → result ≤ℤ product gauge (pos 0, d) }
    ensures within { IsWithin (2 ^ 63) result }
{
    let across = least_times(gauge.1.0, field.left, field.right);
    let along = least_times(gauge.1.1, field.top, field.bottom);
    across + along
}

/// The greatest product of the gauge with a place of the field.
pub fn most_product(gauge: Step, field: Field) -> i128
    requires gauge { IsShort (2 ^ 28) gauge }
    requires field { IsNarrow field }
    ensures most { (d : Cell) → IsInField field d → product gauge (pos 0, d) ≤ℤ result }
    ensures within { IsWithin (2 ^ 63) result }
{
    let across = most_times(gauge.1.0, field.left, field.right);
    let along = most_times(gauge.1.1, field.top, field.bottom);
    across + along
}

/// The numbers of times that a step may be made from a start for the product with the gauge to be that of a place of
/// the field. `None` if the product does not depend on them.
pub fn span_by(gauge: Step, start: Step, step: Step, field: Field) -> Option<Span>
    requires gauge { IsShort (2 ^ 28) gauge }
    requires start { AreShort gauge start }
    requires step { AreShort gauge step }
    requires field { IsNarrow field }
    ensures none { IfNone result (product gauge step ≡ pos 0) }
    ensures some { IfSome result (λ span. (n : ℕ) (d : Cell) → IsInField field d →
        product gauge (pos 0, d) ≡ product gauge (and_then start (times n step)) → (span.from ≤ n) × (n < span.until)) }
    ensures few { IfSome result (λ span. (m : ℕ) → IsWithin m (product gauge start) → span.until ≤ m + 2 ^ 63 + 1) }
{
    let gain = product(gauge, step);
    if gain == 0 {
        return None;
    }
    let low = least_product(gauge, field);
    let high = most_product(gauge, field);
    Some(span_to(product(gauge, start), gain, low, high))
}
