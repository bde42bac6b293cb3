//! Quick decisions: by times that never agree, and by steps that all lead further away.
ghost use Rattle.std.specs.Prelude.{◌≤ℤ◌, pos};
ghost use Rattle.std.specs.Bool.{OnTrue};
ghost use Rattle.life_growth.specs.Relations.Relations.{product};
ghost use Rattle.life_things.specs.Clear.{IsClearOver};
ghost use Rattle.life_things.specs.Fields.{IsNarrow};
ghost use Rattle.life_things.specs.Lattice.Gauges.{NoneFalls};
ghost use Rattle.life_things.specs.Lattice.Short.{IsShort, IsStride, cross_limit, four_start};
ghost use Rattle.life_things.specs.Steps.{AreStrides, list_of};

use crate::field::{Field, most_product};
use crate::lattice::{Step, across_gauge, along_gauge, cross, product, turned_gauge};
use crate::steps::Steps;

/// True if a step does not lead back along a gauge.
fn rises(gauge: Step, step: Step) -> bool
    requires gauge { IsShort cross_limit gauge }
    requires step { IsStride step }
    ensures { OnTrue result (pos 0 ≤ℤ product gauge step) }
{
    if product(gauge, step) < 0 {
        return false;
    }
    true
}

/// True if neither of two steps leads back along a gauge.
fn two_rise(gauge: Step, first: Step, second: Step) -> bool
    requires gauge { IsShort cross_limit gauge }
    requires first { IsStride first }
    requires second { IsStride second }
    ensures { OnTrue result ((pos 0 ≤ℤ product gauge first) × (pos 0 ≤ℤ product gauge second)) }
{
    if !rises(gauge, first) {
        return false;
    }
    rises(gauge, second)
}

/// True if none of some steps leads back along a gauge.
fn none_falls(gauge: Step, steps: Steps) -> bool
    requires gauge { IsShort cross_limit gauge }
    requires strides { AreStrides steps }
    ensures { OnTrue result (NoneFalls gauge (list_of steps)) }
{
    match steps {
        Steps::Zero => true,
        Steps::One(a) => rises(gauge, a),
        Steps::Two(a, b) => two_rise(gauge, a, b),
        Steps::Three(a, b, c) => {
            if !rises(gauge, a) {
                return false;
            }
            two_rise(gauge, b, c)
        }
        Steps::Four(a, b, c, d) => {
            if !two_rise(gauge, a, b) {
                return false;
            }
            two_rise(gauge, c, d)
        }
    }
}

/// True if the start is past the field along a gauge, and no step leads back.
fn is_past(gauge: Step, start: Step, steps: Steps, field: Field) -> bool
    requires gauge { IsShort cross_limit gauge }
    requires start { IsShort four_start start }
    requires strides { AreStrides steps }
    requires narrow { IsNarrow field }
    ensures { OnTrue result (IsClearOver field start (list_of steps)) }
{
    if product(gauge, start) <= most_product(gauge, field) {
        return false;
    }
    none_falls(gauge, steps)
}

/// True if the start is past the field on one side, along a gauge, and no step leads back.
fn is_beyond(gauge: Step, start: Step, steps: Steps, field: Field) -> bool
    requires gauge { IsShort cross_limit gauge }
    requires start { IsShort four_start start }
    requires strides { AreStrides steps }
    requires narrow { IsNarrow field }
    ensures { OnTrue result (IsClearOver field start (list_of steps)) }
{
    if is_past(gauge, start, steps, field) {
        return true;
    }
    is_past(turned_gauge(gauge), start, steps, field)
}

/// True if the start is past the field on one side, along a gauge of one step, and no step leads back.
fn is_beyond_one(step: Step, start: Step, steps: Steps, field: Field) -> bool
    requires step { IsStride step }
    requires start { IsShort four_start start }
    requires strides { AreStrides steps }
    requires narrow { IsNarrow field }
    ensures { OnTrue result (IsClearOver field start (list_of steps)) }
{
    if is_beyond(across_gauge(step), start, steps, field) {
        return true;
    }
    is_beyond(along_gauge(step), start, steps, field)
}

/// True if the start is past the field on one side, along a gauge of one of three steps or of two of them, and no step leads
/// back.
fn is_beyond_three(three: (Step, Step, Step), start: Step, steps: Steps, field: Field) -> bool
    requires three { IsStride three.0 × IsStride three.1 × IsStride three.2 }
    requires start { IsShort four_start start }
    requires strides { AreStrides steps }
    requires narrow { IsNarrow field }
    ensures { OnTrue result (IsClearOver field start (list_of steps)) }
{
    let (a, b, c) = three;
    if is_beyond(cross(a, b), start, steps, field) {
        return true;
    }
    if is_beyond(cross(b, c), start, steps, field) {
        return true;
    }
    if is_beyond(cross(c, a), start, steps, field) {
        return true;
    }
    if is_beyond_one(a, start, steps, field) {
        return true;
    }
    if is_beyond_one(b, start, steps, field) {
        return true;
    }
    is_beyond_one(c, start, steps, field)
}

/// True if all steps lead further away from the field, as a gauge of one of them or of two shows.
pub fn leads_away(start: Step, steps: Steps, field: Field) -> bool
    requires start { IsShort four_start start }
    requires strides { AreStrides steps }
    requires narrow { IsNarrow field }
    ensures { OnTrue result (IsClearOver field start (list_of steps)) }
{
    match steps {
        Steps::Three(a, b, c) => is_beyond_three((a, b, c), start, steps, field),
        Steps::Four(a, b, c, d) => {
            if is_beyond_three((a, b, c), start, steps, field) {
                return true;
            }
            is_beyond_three((b, c, d), start, steps, field)
        }
        _ => false,
    }
}
