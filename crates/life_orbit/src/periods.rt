//! The numbers of periods after which two sets are both in their first phase again.
ghost use Rattle.std.specs.Prelude.{◌≡◌, ℕ, ◌*◌, ◌≤◌};
ghost use Rattle.std.specs.Int.{IsGcd};

use crate::orbit::BOUND_LIMIT;

/// The greatest common divisor of two numbers.
fn common_divisor(first: u32, second: u32) -> u32
    ensures { IsGcd first second result }
{
    let mut divisor = first;
    let mut rest = second;
    while rest != 0 {
        let next = divisor % rest;
        divisor = rest;
        rest = next;
    }
    divisor
}

/// The least numbers of periods of two sets after which both are in their first phase again.
pub fn rounds_together(first: u32, second: u32) -> (u32, u32)
    requires first { 1 ≤ first × first ≤ BOUND_LIMIT }
    requires second { 1 ≤ second × second ≤ BOUND_LIMIT }
    ensures together { result.0 * first ≡ result.1 * second }
    ensures least { (g : ℕ) → IsGcd first second g →
        ((result.0 * g ≡ second) × (result.1 * g ≡ first)) }
    ensures first { 1 ≤ result.0 × result.0 ≤ BOUND_LIMIT }
    ensures second { 1 ≤ result.1 × result.1 ≤ BOUND_LIMIT }
{
    let common = common_divisor(first, second);
    (second / common, first / common)
}
