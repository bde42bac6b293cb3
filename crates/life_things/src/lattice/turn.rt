//! The numbers of times that one step may be made to agree with a time, if another follows it.
ghost use Rattle.std.specs.Prelude.{◌≡◌, ◌≢◌, ℕ, ◌%◌, ◌<◌, ◌≤◌, ◌^◌, ℤ, ◌+ℤ◌, ◌*ℤ◌, pos, IfNone, IfSome};
ghost use Rattle.life_things.specs.Lattice.Alike.{AreAlike};
ghost use Rattle.life_things.specs.Lattice.Numbers.{number_limit};
ghost use Rattle.life_things.specs.Lattice.Short.{IsWithin, count_limit, two_start};

use crate::lattice::numbers::common_divisor;

/// The numbers that leave the remainder `first` when divided by `every`.
#[derive(Clone, Copy)]
pub struct Turn {
    pub first: u128,
    pub every: u128,
}

/// The number from 0 to below a modulus that differs from a number by a multiple of the modulus.
fn residue(number: i128, modulus: u128) -> u128
    requires number { IsWithin two_start number }
    requires some { 1 ≤ modulus }
    requires few { modulus ≤ number_limit }
    ensures less { result < modulus }
    ensures same { AreAlike modulus number (pos result) }
{
    let rest = number.unsigned_abs() % modulus;
    if number >= 0 {
        return rest;
    }
    if rest == 0 {
        return 0;
    }
    modulus - rest
}

/// A factor whose product with a number is likely to differ from the greatest common divisor of the number and a
/// modulus by a multiple of the modulus.
fn likely_factor(number: u128, modulus: u128) -> u128
    requires { 1 ≤ modulus }
    ensures { result < modulus }
{
    let (mut divisor, mut rest) = (modulus, number);
    let (mut factor, mut next) = (0u128, 1u128);
    while rest != 0 {
        let back = (next.wrapping_mul(divisor / rest)) % modulus;
        let later = factor.wrapping_add(modulus.wrapping_sub(back));
        let left = divisor % rest;
        divisor = rest;
        rest = left;
        factor = next;
        next = later % modulus;
    }
    factor % modulus
}

/// A turn that has every number of times that a step may be made to lead, with some number of another step, from a
/// time to 0. `None` means that there is no such number.
pub fn turn_of(start: i128, step: i128, last: i128) -> Option<Turn>
    requires start { IsWithin two_start start }
    requires step { IsWithin number_limit step }
    requires last { IsWithin number_limit last }
    requires later { last ≢ pos 0 }
    ensures none { IfNone result ((n : ℕ) (m : ℤ) →
        (start +ℤ ((pos n *ℤ step) +ℤ (m *ℤ last))) ≢ pos 0) }
    ensures some { IfSome result (λ turn. (n : ℕ) (m : ℤ) →
        (start +ℤ ((pos n *ℤ step) +ℤ (m *ℤ last))) ≡ pos 0 → n % turn.every ≡ turn.first) }
    ensures every { IfSome result (λ turn. 1 ≤ turn.every × turn.every ≤ number_limit) }
    ensures first { IfSome result (λ turn. turn.first < turn.every) }
{
    let modulus = last.unsigned_abs();
    let common = common_divisor(step.unsigned_abs(), modulus);
    let pace = residue(step, modulus);
    let factor = likely_factor(pace, modulus);
    if (pace * factor) % modulus != common % modulus {
        return Some(Turn { first: 0, every: 1 });
    }
    let rest = (residue(-start, modulus) * factor) % modulus;
    if rest % common != 0 {
        return None;
    }
    Some(Turn {
        first: rest / common,
        every: modulus / common,
    })
}

/// The first number of a turn that is not less than `from`.
pub fn first_in_turn(from: u128, turn: Turn) -> u128
    requires from { from ≤ count_limit }
    requires every { 1 ≤ turn.every × turn.every ≤ number_limit }
    requires first { turn.first < turn.every }
    ensures turn { result % turn.every ≡ turn.first }
    ensures late { from ≤ result }
    ensures none { (n : ℕ) → from ≤ n → n < result → n % turn.every ≢ turn.first }
{
    let low = (from / turn.every) * turn.every + turn.first;
    if low < from {
        return low + turn.every;
    }
    low
}
