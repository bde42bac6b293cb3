//! Numbers with which steps cancel out.
ghost use Rattle.std.specs.Prelude.{◌≡◌, ◌+◌, ◌≤◌, ◌*ℤ◌, pos, unsigned_abs};
ghost use Rattle.std.specs.Int.{◌∣◌, IsGcd};
ghost use Rattle.life_growth.specs.Relations.Relations.{above};
ghost use Rattle.life_things.specs.Lattice.Numbers.{AreFew, DividesAll, IsLighter, number_limit, total_above, turned};
ghost use Rattle.life_things.specs.Lattice.Short.{IsWithin};

/// The number of times that each of up to four steps is made; below 0 where it is made back.
#[derive(Clone, Copy)]
pub struct Numbers {
    pub first: i128,
    pub second: i128,
    pub third: i128,
    pub fourth: i128,
}

/// The number itself where it is above 0, and otherwise 0.
pub fn above(number: i128) -> u128
    requires { IsWithin number_limit number }
    ensures value { result ≡ above number }
    ensures few { result ≤ number_limit }
{
    if number <= 0 {
        return 0;
    }
    number as u128
}

/// The sum of the numbers above 0.
fn total_above(numbers: Numbers) -> u128
    requires { AreFew numbers }
    ensures { result ≡ total_above numbers }
{
    let (first, second) = (above(numbers.first), above(numbers.second));
    let (third, fourth) = (above(numbers.third), above(numbers.fourth));
    first + (second + (third + fourth))
}

/// The numbers with opposite signs.
fn turned(numbers: Numbers) -> Numbers
    requires { AreFew numbers }
    ensures { result ≡ turned numbers }
{
    Numbers {
        first: -numbers.first,
        second: -numbers.second,
        third: -numbers.third,
        fourth: -numbers.fourth,
    }
}

/// The greatest common divisor of two numbers.
pub fn common_divisor(first: u128, second: u128) -> u128
    ensures { IsGcd first second result }
{
    let mut divisor = first;
    let mut rest = second;
    while rest != 0 {
        let next = divisor % rest;
        divisor = rest;
        rest = next;
    }
    divisor
}

/// The quotient of a number and one of its divisors.
fn divided(number: i128, divisor: u128) -> i128
    requires number { IsWithin number_limit number }
    requires some { 1 ≤ divisor }
    requires divides { divisor ∣ unsigned_abs number }
    ensures whole { number ≡ (pos divisor *ℤ result) }
    ensures few { IsWithin number_limit result }
{
    let quotient = (number.unsigned_abs() / divisor) as i128;
    if number < 0 {
        return -quotient;
    }
    quotient
}

/// A number that divides all of them: their greatest common divisor.
fn divisor_of(numbers: Numbers) -> u128
    requires few { AreFew numbers }
    requires some { 1 ≤ total_above numbers + total_above (turned numbers) }
    ensures some { 1 ≤ result }
    ensures divides { DividesAll result numbers }
{
    let front = common_divisor(numbers.first.unsigned_abs(), numbers.second.unsigned_abs());
    let back = common_divisor(numbers.third.unsigned_abs(), numbers.fourth.unsigned_abs());
    common_divisor(front, back)
}

/// The numbers, divided by a common divisor.
fn reduced(numbers: Numbers) -> Numbers
    requires few { AreFew numbers }
    requires some { 1 ≤ total_above numbers + total_above (turned numbers) }
    ensures few { AreFew result }
    ensures some { 1 ≤ total_above result + total_above (turned result) }
    ensures lighter { IsLighter result numbers }
{
    let divisor = divisor_of(numbers);
    Numbers {
        first: divided(numbers.first, divisor),
        second: divided(numbers.second, divisor),
        third: divided(numbers.third, divisor),
        fourth: divided(numbers.fourth, divisor),
    }
}

/// The least numbers with which steps cancel out as they do with these. Of the two choices of sign, the one with fewer
/// steps to be made.
pub fn lightest(numbers: Numbers) -> Numbers
    requires few { AreFew numbers }
    requires some { 1 ≤ total_above numbers + total_above (turned numbers) }
    ensures few { AreFew result }
    ensures some { 1 ≤ total_above result }
    ensures lighter { IsLighter result numbers }
{
    let forth = reduced(numbers);
    let back = turned(forth);
    let (ups, downs) = (total_above(forth), total_above(back));
    if ups == 0 {
        return back;
    }
    if downs == 0 {
        return forth;
    }
    if downs < ups {
        return back;
    }
    forth
}
