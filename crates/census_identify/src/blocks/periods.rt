//! The common period of several parts.
ghost use Rattle.std.specs.Prelude.{◌≡◌, ◌≤◌, ◌%◌, ◌==◌, not, IfSome};
ghost use Rattle.std.specs.List.{list_all};
ghost use Rattle.census_identify.specs.Blocks.Periods.{are_alike, are_back, common_period, moves, number_after, period_of};

use life_answer::Part;
use life_orbit::BOUND_LIMIT;

/// The number written in place of each one that is greater than every bound.
const BEYOND: u32 = 100_001;

// The number that the digits at the front form, at most `BEYOND`.
fn front_number(digits: &[u8]) -> u32
    ensures { result ≡ number_after 0 digits.now }
{
    let mut number: u32 = 0;
    for at in 0..digits.len() {
        if !digits[at].is_ascii_digit() {
            return number;
        }
        number = (number * 10 + u32::from(digits[at] - b'0')).min(BEYOND);
    }
    number
}

// The period of an object with this code.
fn period_of(code: &[u8]) -> u32
    ensures value { result ≡ period_of code.now }
    ensures some { 1 ≤ result }
{
    if code.starts_with(b"xs") || code.len() < 2 {
        return 1;
    }
    front_number(&code[2..]).max(1)
}

// True where a part moves.
fn moves(part: &Part) -> bool
    ensures { result ≡ moves part.now }
{
    part.code.as_slice().starts_with(b"xq")
}

// True where all parts move.
fn all_move(parts: &[Part]) -> bool
    ensures { result ≡ list_all moves parts.now }
{
    parts.iter().all(|part| moves(part))
}

// True where no part moves.
fn none_moves(parts: &[Part]) -> bool
    ensures { result ≡ list_all (λ p. not (moves p)) parts.now }
{
    parts.iter().all(|part| !moves(part))
}

// True where there are parts, and all of them move or none does.
fn are_alike(parts: &[Part]) -> bool
    ensures { result ≡ are_alike parts.now }
{
    !parts.is_empty() && (all_move(parts) || none_moves(parts))
}

// True where each part has recurred after this number of generations.
fn are_back(parts: &[Part], generations: u32) -> bool
    ensures { result ≡ are_back parts.now generations }
{
    parts
        .iter()
        .all(|part| generations % period_of(part.code.as_slice()) == 0)
}

/// The least number of generations, up to the bound, after which all parts have recurred, by their codes, where all of them
/// move or none does. Without parts there is no such number.
pub fn common_period(parts: &[Part], bound: u32) -> Option<u32>
    requires { bound ≤ BOUND_LIMIT }
    ensures value { result ≡ common_period bound parts.now }
    ensures within { IfSome result (λ n. (1 ≤ n) × (n ≤ bound)) }
{
    if !are_alike(parts) {
        return None;
    }
    for generations in 1..bound + 1 {
        if are_back(parts, generations) {
            return Some(generations);
        }
    }
    None
}
