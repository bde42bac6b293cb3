//! Trying each number of times that the first of four steps can be made, where three others follow it.
ghost use Rattle.std.specs.Prelude.{◌≡◌, ◌≢◌, ℕ, ◌%◌, ◌<◌, ◌^◌, ◌↔◌, ◌≤◌, ◌≤ℤ◌, ◌+ℤ◌, IsTrue, pos};
ghost use Rattle.life_growth.specs.Relations.Relations.{product};
ghost use Rattle.life_things.specs.Lattice.Numbers.{number_limit};
ghost use Rattle.life_things.specs.Lattice.Short.{IsShort, IsWithin, cross_limit};
ghost use Rattle.life_things.specs.Fields.{IsFieldOf, IsInField, IsNarrow};
ghost use Rattle.life_things.specs.Tries.{AreClear, AreFit, ClearAfter, ClearTowards};

use crate::field::Field;
use crate::lattice::{Step, Turn, after, cross, first_in_turn, product, turn_of};
use crate::three::three_ways;
use life_cells::CellList;

/// A start, a step that is made from there a number of times from `from` to before `until`, and three steps that follow it,
/// each made any number of times.
#[derive(Clone, Copy)]
pub struct Tries {
    pub start: Step,
    pub step: Step,
    pub first: Step,
    pub second: Step,
    pub third: Step,
    pub from: u128,
    pub until: u128,
}

/// True if a set is never near the other where the step is made `count` times.
fn is_clear_after(one: &CellList, other: &CellList, field: Field, tries: Tries, count: u128) -> bool
    requires tries { AreFit tries }
    requires count { count < tries.until }
    requires field { IsFieldOf field one.now other.now }
    ensures { IsTrue result ↔ ClearAfter one.now other.now tries count }
{
    let start = after(tries.start, count, tries.step);
    three_ways(
        one,
        other,
        field,
        start,
        tries.first,
        tries.second,
        tries.third,
    )
}

/// True if a set is never near the other, with each number tried, one after another.
fn are_clear_each(one: &CellList, other: &CellList, field: Field, tries: Tries) -> bool
    requires tries { AreFit tries }
    requires field { IsFieldOf field one.now other.now }
    ensures { IsTrue result ↔ AreClear one.now other.now tries }
{
    for count in tries.from..tries.until {
        if !is_clear_after(one, other, field, tries, count) {
            return false;
        }
    }
    true
}

/// True if a set is never near the other, with the numbers of one turn tried.
fn are_clear_in_turn(
    one: &CellList,
    other: &CellList,
    field: Field,
    tries: Tries,
    turn: Turn,
) -> bool
    requires tries { AreFit tries }
    requires every { 1 ≤ turn.every × turn.every ≤ number_limit }
    requires first { turn.first < turn.every }
    requires field { IsFieldOf field one.now other.now }
    ensures { IsTrue result ↔ ((n : ℕ) → tries.from ≤ n → n < tries.until →
        n % turn.every ≡ turn.first → ClearAfter one.now other.now tries n) }
{
    if tries.until <= tries.from {
        return true;
    }
    let mut count = first_in_turn(tries.from, turn);
    while count < tries.until {
        if !is_clear_after(one, other, field, tries, count) {
            return false;
        }
        count += turn.every;
    }
    true
}

/// True if a set is never near the other, with those numbers tried that may lead to a place along a gauge.
fn are_clear_towards(
    one: &CellList,
    other: &CellList,
    field: Field,
    tries: Tries,
    gauge: Step,
    place: (i128, i128),
) -> bool
    requires tries { AreFit tries }
    requires gauge { IsShort cross_limit gauge }
    requires third { product gauge tries.third ≢ pos 0 }
    requires place { IsInField field place }
    requires field { IsFieldOf field one.now other.now }
    ensures clear { IsTrue result → ClearTowards one.now other.now tries gauge place }
    ensures all { AreClear one.now other.now tries → IsTrue result }
{
    let start = product(gauge, tries.start) - product(gauge, (0, place));
    match turn_of(
        start,
        product(gauge, tries.step),
        product(gauge, tries.third),
    ) {
        None => true,
        Some(turn) => are_clear_in_turn(one, other, field, tries, turn),
    }
}

/// The number of places from the first to the last.
fn places_between(first: i128, last: i128) -> u128
    requires first { IsWithin (2 ^ 34) first }
    requires last { IsWithin (2 ^ 34) last }
    ensures within { (n : ℕ) → ((first +ℤ pos n) ≤ℤ last) ↔ (n < result) }
    ensures few { result ≤ 2 ^ 36 }
{
    if last < first {
        return 0;
    }
    (last - first) as u128 + 1
}

/// The place `column` columns and `row` rows from the corner of a field.
fn place_at(field: Field, column: u128, row: u128) -> (i128, i128)
    requires column { column ≤ 2 ^ 36 }
    requires row { row ≤ 2 ^ 36 }
    requires field { IsNarrow field }
    ensures { result ≡ ((field.left +ℤ pos column), (field.top +ℤ pos row)) }
{
    (field.left + column as i128, field.top + row as i128)
}

/// True if a set is never near the other, with those numbers tried that may lead to the places of a row along a gauge.
fn are_clear_in_row(
    one: &CellList,
    other: &CellList,
    field: Field,
    tries: Tries,
    gauge: Step,
    row: u128,
) -> bool
    requires tries { AreFit tries }
    requires gauge { IsShort cross_limit gauge }
    requires third { product gauge tries.third ≢ pos 0 }
    requires row { (field.top +ℤ pos row) ≤ℤ field.bottom }
    requires few { row ≤ 2 ^ 36 }
    requires field { IsFieldOf field one.now other.now }
    ensures clear { IsTrue result → (n : ℕ) → (field.left +ℤ pos n) ≤ℤ field.right →
        ClearTowards one.now other.now tries gauge ((field.left +ℤ pos n), (field.top +ℤ pos row)) }
    ensures all { AreClear one.now other.now tries → IsTrue result }
{
    for column in 0..places_between(field.left, field.right) {
        let place = place_at(field, column, row);
        if !are_clear_towards(one, other, field, tries, gauge, place) {
            return false;
        }
    }
    true
}

/// True if a set is never near the other, with those numbers tried that may lead to the places of the field along a gauge.
fn are_clear_in_field(
    one: &CellList,
    other: &CellList,
    field: Field,
    tries: Tries,
    gauge: Step,
) -> bool
    requires tries { AreFit tries }
    requires gauge { IsShort cross_limit gauge }
    requires third { product gauge tries.third ≢ pos 0 }
    requires field { IsFieldOf field one.now other.now }
    ensures clear { IsTrue result → (m n : ℕ) → (field.left +ℤ pos n) ≤ℤ field.right →
        (field.top +ℤ pos m) ≤ℤ field.bottom →
        ClearTowards one.now other.now tries gauge ((field.left +ℤ pos n), (field.top +ℤ pos m)) }
    ensures all { AreClear one.now other.now tries → IsTrue result }
{
    for row in 0..places_between(field.top, field.bottom) {
        if !are_clear_in_row(one, other, field, tries, gauge, row) {
            return false;
        }
    }
    true
}

/// The number of places in a field.
fn places_of(field: Field) -> u128
    requires { IsNarrow field }
{
    places_between(field.left, field.right) * places_between(field.top, field.bottom)
}

/// True if a set is never near the other, with each number that is to be tried: one by one, or place by place of the field
/// where there are fewer of these.
pub fn are_clear(one: &CellList, other: &CellList, field: Field, tries: Tries) -> bool
    requires tries { AreFit tries }
    requires field { IsFieldOf field one.now other.now }
    ensures { IsTrue result ↔ AreClear one.now other.now tries }
{
    if tries.until <= places_of(field) {
        return are_clear_each(one, other, field, tries);
    }
    let gauge = cross(tries.first, tries.second);
    if product(gauge, tries.third) == 0 {
        return are_clear_each(one, other, field, tries);
    }
    are_clear_in_field(one, other, field, tries, gauge)
}
