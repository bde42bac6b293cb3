//! Leaps of a plane of squares.
ghost use Rattle.std.specs.Prelude.{◌≡◌, ◌+◌, ◌<◌, ◌≤◌, ◌^◌, All, IfNone, IfSome};
ghost use Rattle.life_model.specs.Generation as sets;
ghost use Rattle.life_cells.specs.Limits.{IsWithin};
ghost use Rattle.life_advance.specs.Later.{IsLater, Trails};
ghost use Rattle.life_advance.specs.Leaps.Planes.{rule_of, steps_made};

use crate::effort::{Effort, Trial};
use crate::leaps::{LeapPlane, NoLeap};
use life_board::Board;
use life_cells::{CellList, Rule};
use life_plane::{AGE_LIMIT, Plane};
use std::alloc::Global;

/// The number of leaps that are tried beyond the number of generations to make, since some run out of memory.
const MORE_TRIES: u32 = 32;

/// The greatest exponent, up to `greatest`, whose power of two divides a number.
fn exponent_of(number: u32, greatest: u32) -> u32
    requires { 1 ≤ number }
    ensures { 2 ^ result ≤ number }
{
    let mut power = 1u64;
    for exponent in 0..greatest {
        if u64::from(number) % (2 * power) != 0 {
            return exponent;
        }
        power *= 2;
    }
    greatest
}

/// The greatest power of two that divides a number.
fn next_leap(number: u32) -> u32 {
    number & number.wrapping_neg()
}

/// Frees the squares that the cells do not need, if squares take much memory.
fn make_room(plane: &mut LeapPlane)
    ensures { plane.new ≡ plane.old }
{
    if plane.is_half_full() {
        let _ = plane.collect();
    }
}

/// Makes a leap towards an age, of at most 2^`greatest` generations and with at most `work` work. If it runs out of
/// memory, the next leap has to be shorter. Returns true where leaping may continue.
fn leap_once(plane: &mut LeapPlane, until: u32, work: u64, greatest: &mut u32) -> bool
    requires until { until ≤ AGE_LIMIT }
    requires young { steps_made plane.old < until }
    ensures rule { rule_of plane.new ≡ rule_of plane.old }
    ensures within { steps_made plane.new ≤ until }
    ensures later { IsLater (rule_of plane.old) plane.old.0 plane.new.0 }
{
    make_room(plane);
    let exponent = exponent_of(until - plane.age(), *greatest);
    match plane.leap(exponent, work) {
        Ok(()) => true,
        Err(NoLeap::Work) => false,
        Err(NoLeap::Memory) => {
            if exponent == 0 || plane.collect().is_err() {
                return false;
            }
            *greatest = exponent - 1;
            true
        }
    }
}

/// Leaps until an age, as far as the work of a trial and the memory allow.
fn leap_on(plane: &mut LeapPlane, until: u32, trial: &Trial)
    requires until { until ≤ AGE_LIMIT }
    requires young { steps_made plane.old ≤ until }
    ensures rule { rule_of plane.new ≡ rule_of plane.old }
    ensures within { steps_made plane.new ≤ until }
    ensures later { IsLater (rule_of plane.old) plane.old.0 plane.new.0 }
{
    let begun = plane.work();
    let mut greatest = 31;
    'leaps: for _ in 0..(until - plane.age()).saturating_add(MORE_TRIES) {
        if plane.age() == until {
            return;
        }
        let worked = plane.work().saturating_sub(begun);
        if !leap_once(plane, until, trial.left(worked, plane.age()), &mut greatest) {
            return;
        }
    }
}

/// Cells in order, and their age.
#[derive(Drop)]
pub struct Landing {
    pub cells: CellList,
    pub age: u32,
}

/// The cells of a board in squares, if there is memory.
fn squares_of(alloc: Global, board: &Board, rule: &Rule) -> Option<LeapPlane>
    requires { board.now.1 ≤ AGE_LIMIT }
    ensures board { IfSome result (λ plane. plane.0 ≡ board.now) }
    ensures rule { IfSome result (λ plane. rule_of plane ≡ rule.now) }
{
    let age = board.age();
    let Ok(cells) = board.cells() else {
        return None;
    };
    match LeapPlane::at_age(alloc, rule, &cells, age) {
        Ok(plane) => Some(plane),
        Err(_) => None,
    }
}

/// The cells and the age of a plane of squares, if there is memory for its cells.
fn landing_of(plane: &LeapPlane) -> Option<Landing>
    ensures is { IfSome result (λ landing. (landing.cells, landing.age) ≡ plane.now.0) }
    ensures fits { IfSome result
        (λ landing. All (IsWithin landing.age) (sets.cells landing.cells)) }
{
    let age = plane.age();
    match plane.cells() {
        Ok(cells) => Some(Landing { cells, age }),
        Err(_) => None,
    }
}

/// True where the next leap of a plane, if there is one, goes beyond an age.
fn lands_beyond(plane: &Option<LeapPlane>, age: u32, until: u32) -> bool {
    match plane {
        Some(plane) => {
            let left = until.saturating_sub(plane.age());
            left > 0 && plane.age().saturating_add(next_leap(left)) > age
        }
        None => false,
    }
}

/// The plane with which leaps continue: the one that is held, if it is not behind the board, or otherwise one with the
/// cells of the board, if there is memory.
fn plane_for(
    alloc: Global,
    held: Option<LeapPlane>,
    board: &Board,
    rule: &Rule,
    is_begun: bool,
) -> Option<LeapPlane>
    requires young { board.now.1 ≤ AGE_LIMIT }
    requires held { Trails rule.now held board.now }
    ensures { Trails rule.now result board.now }
{
    let Some(mut plane) = held else {
        return squares_of(alloc, board, rule);
    };
    if is_begun {
        return Some(plane);
    }
    let age = board.age();
    let Ok(cells) = board.cells() else {
        return None;
    };
    match plane.put(&cells, age) {
        Ok(()) => Some(plane),
        Err(_) => None,
    }
}

/// The cells of a board some generations later, at most up to an age, if leaps get further with the work and the memory
/// that they have. The leaping plane is kept.
pub fn leapt(
    alloc: Global,
    kept: &mut Option<LeapPlane>,
    board: &Board,
    rule: &Rule,
    until: u32,
    effort: &mut Effort,
) -> Option<Landing>
    requires until { until ≤ AGE_LIMIT }
    requires young { board.now.1 < until }
    requires kept { Trails rule.now kept.old board.now }
    ensures kept { IfNone result (Trails rule.now kept.new board.now) }
    ensures landed { IfSome result
        (λ landing. Trails rule.now kept.new (landing.cells, landing.age)) }
    ensures within { IfSome result (λ landing. landing.age ≤ until) }
    ensures further { IfSome result (λ landing. board.now.1 < landing.age) }
    ensures later { IfSome result
        (λ landing. IsLater rule.now board.now (landing.cells, landing.age)) }
    ensures fits { IfSome result
        (λ landing. All (IsWithin landing.age) (sets.cells landing.cells)) }
{
    let age = board.age();
    let is_begun = lands_beyond(kept, age, until);
    let trial = effort.trial(age, until - age, board.population(), is_begun);
    effort.put_off();
    if !trial.is_worthwhile() {
        return None;
    }
    let held = kept.take();
    let mut plane = plane_for(alloc, held, board, rule, is_begun)?;
    let begun = plane.work();
    leap_on(&mut plane, until, &trial);
    effort.add_trial(&trial, plane.work().saturating_sub(begun), plane.age());
    if plane.age() <= age {
        *kept = Some(plane);
        return None;
    }
    let landing = landing_of(&plane)?;
    *kept = Some(plane);
    Some(landing)
}
