//! Cross products, and the numbers with which four steps, or three in a plane, cancel out.
ghost use Rattle.std.specs.Prelude.{◌≡◌, ◌+◌, ◌≤◌, ◌*ℤ◌, ◌-ℤ◌, [], ◌∷◌, pos};
ghost use Rattle.life_growth.specs.Relations.Relations.{cross, product, spanned};
ghost use Rattle.life_things.specs.Lattice.Gauges.{across_gauge, along_gauge};
ghost use Rattle.life_things.specs.Lattice.Numbers.{AreFew, StayBy, four_numbers, number_limit, total_above, turned};
ghost use Rattle.life_things.specs.Lattice.Short.{IsShort, IsStride, IsWithin, cross_limit, way_limit};

use crate::lattice::gauges::{across_gauge, along_gauge};
use crate::lattice::numbers::Numbers;
use crate::lattice::step::{Step, multiplied, product};

/// The determinant of two by two numbers: the product of the first and the last less that of the second and the
/// third.
fn determinant(first: i128, second: i128, third: i128, fourth: i128) -> i128
    requires first { IsWithin way_limit first }
    requires second { IsWithin way_limit second }
    requires third { IsWithin way_limit third }
    requires fourth { IsWithin way_limit fourth }
    ensures value { result ≡ ((first *ℤ fourth) -ℤ (second *ℤ third)) }
    ensures few { IsWithin cross_limit result }
{
    let outer = multiplied(first, fourth);
    let inner = multiplied(second, third);
    outer - inner
}

/// The cross product of two steps.
pub fn cross(first: Step, second: Step) -> Step
    requires first { IsShort way_limit first }
    requires second { IsShort way_limit second }
    ensures value { result ≡ cross first second }
    ensures short { IsShort cross_limit result }
{
    (
        determinant(first.1.0, first.1.1, second.1.0, second.1.1),
        (
            determinant(first.1.1, first.0, second.1.1, second.0),
            determinant(first.0, first.1.0, second.0, second.1.0),
        ),
    )
}

/// The signed volume that three steps span.
fn spanned(first: Step, second: Step, third: Step) -> i128
    requires first { IsShort way_limit first }
    requires second { IsShort way_limit second }
    requires third { IsShort way_limit third }
    ensures value { result ≡ spanned first second third }
    ensures few { IsWithin number_limit result }
{
    product(cross(second, third), first)
}

/// The numbers of the relation between any four steps.
fn four_numbers(first: Step, second: Step, third: Step, fourth: Step) -> Numbers
    requires first { IsShort way_limit first }
    requires second { IsShort way_limit second }
    requires third { IsShort way_limit third }
    requires fourth { IsShort way_limit fourth }
    ensures value { result ≡ four_numbers first second third fourth }
    ensures few { AreFew result }
{
    Numbers {
        first: spanned(fourth, second, third),
        second: spanned(first, fourth, third),
        third: spanned(first, second, fourth),
        fourth: -spanned(first, second, third),
    }
}

/// Numbers with which two steps cancel out, if neither is faster than the other.
pub fn parallel_numbers(step: Step, last: Step) -> Numbers
    requires step { IsStride step }
    requires last { IsStride last }
    requires across { product (across_gauge last) step ≡ pos 0 }
    requires along { product (along_gauge last) step ≡ pos 0 }
    ensures few { AreFew result }
    ensures some { 1 ≤ total_above result + total_above (turned result) }
    ensures two { result.third ≡ pos 0 × result.fourth ≡ pos 0 }
    ensures stay { StayBy (step ∷ last ∷ []) result }
{
    Numbers {
        first: last.0,
        second: -step.0,
        third: 0,
        fourth: 0,
    }
}

/// Numbers with which three steps in a plane cancel out.
pub fn plane_numbers(first: Step, second: Step, third: Step) -> Numbers
    requires first { IsStride first }
    requires second { IsStride second }
    requires third { IsStride third }
    requires plane { spanned first second third ≡ pos 0 }
    ensures few { AreFew result }
    ensures some { 1 ≤ total_above result + total_above (turned result) }
    ensures three { result.fourth ≡ pos 0 }
    ensures stay { StayBy (first ∷ second ∷ third ∷ []) result }
{
    if product(across_gauge(second), first) != 0 {
        return four_numbers(first, second, third, (0, (0, 1)));
    }
    if product(along_gauge(second), first) != 0 {
        return four_numbers(first, second, third, (0, (1, 0)));
    }
    parallel_numbers(first, second)
}

/// Numbers with which four steps cancel out.
pub fn space_numbers(first: Step, second: Step, third: Step, fourth: Step) -> Numbers
    requires first { IsStride first }
    requires second { IsStride second }
    requires third { IsStride third }
    requires fourth { IsStride fourth }
    ensures few { AreFew result }
    ensures some { 1 ≤ total_above result + total_above (turned result) }
    ensures stay { StayBy (first ∷ second ∷ third ∷ fourth ∷ []) result }
{
    let numbers = four_numbers(first, second, third, fourth);
    if numbers.fourth != 0 {
        return numbers;
    }
    plane_numbers(first, second, third)
}
