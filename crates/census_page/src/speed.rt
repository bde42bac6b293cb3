//! The speeds of spaceships, in words.
use crate::html::Html;
use crate::own::{C, DIAGONAL, ORTHOGONAL, PAIR, PAIR_NEXT, PAIR_SPEED, SLASH};
use std::alloc::AllocError;

/// The motion of an object: how far it moves to the right and down in a period.
#[derive(Clone, Copy)]
pub struct Way {
    pub period: u64,
    pub dx: i64,
    pub dy: i64,
}

// The greatest common divisor.
fn gcd(one: u64, other: u64) -> u64 {
    let mut a = one;
    let mut b = other;
    'divide: while b != 0 {
        let rest = a % b;
        a = b;
        b = rest;
    }
    a
}

// Adds a number of generations, left out if it is 1.
fn push_generations(html: &mut Html, period: u64) -> Result<(), AllocError> {
    if period <= 1 {
        return Ok(());
    }
    html.own(SLASH)?;
    html.number(period)
}

// Adds a speed along one of the eight directions. A number of cells is left out if it is 1.
fn push_straight(
    html: &mut Html,
    far: u64,
    period: u64,
    direction: usize,
) -> Result<(), AllocError> {
    if far > 1 {
        html.number(far)?;
    }
    html.own(C)?;
    push_generations(html, period)?;
    html.own(direction)
}

// Adds a speed along no such direction.
fn push_oblique(html: &mut Html, far: u64, near: u64, period: u64) -> Result<(), AllocError> {
    html.own(PAIR)?;
    html.number(far)?;
    html.own(PAIR_NEXT)?;
    html.number(near)?;
    html.own(PAIR_SPEED)?;
    push_generations(html, period)
}

// Adds a speed: `far` cells along one axis and `near` cells along the other in a period.
fn push_words(html: &mut Html, far: u64, near: u64, period: u64) -> Result<(), AllocError> {
    if near == 0 {
        return push_straight(html, far, period, ORTHOGONAL);
    }
    if near == far {
        return push_straight(html, far, period, DIAGONAL);
    }
    push_oblique(html, far, near, period)
}

/// Appends a speed in lowest terms, such as c/4 diagonal, 2c/5 orthogonal or (2, 1)c/6. The only error is out of memory.
pub fn push_speed(html: &mut Html, way: &Way) -> Result<(), AllocError> {
    let across = way.dx.unsigned_abs();
    let down = way.dy.unsigned_abs();
    let far = across.max(down);
    let near = across.min(down);
    let step = gcd(gcd(far, near), way.period).max(1);
    push_words(html, far / step, near / step, way.period / step)
}
