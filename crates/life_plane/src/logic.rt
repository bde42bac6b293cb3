//! The next state of 64 cells at once, by logic on words.
ghost use Rattle.std.specs.Prelude.{◌≡◌, ℕ, ◌+◌, ◌*◌, ◌<◌, ◌≤◌, slice_index};
ghost use Rattle.std.specs.Int.{bit_at};
ghost use Rattle.life_model.specs.Rule.{Rule};
ghost use Rattle.life_plane.specs.Flags.{as_bit};
ghost use Rattle.life_plane.specs.Bits.{number_in_planes, next_state};
ghost use Rattle.life_plane.specs.Numbers.{number_at};
ghost use Rattle.life_plane.specs.Logics.{IsPolynomialOf, IsLogicOf, xor_if, sum_of_four, polynomial_at, term_at};

use crate::adders::half_adder;
use crate::answers::word_of;
use life_cells::Rule;

/// At each of 64 places a number of live neighbours, from 0 to 8: bit `j` of `ones`, and twice the sum of bit `j` of the
/// other four.
#[derive(Clone, Copy, PartialEq, Eq, Debug)]
pub struct Count {
    pub ones: u64,
    /// Twos among the three cells of the row above.
    pub above: u64,
    /// Twos among the three cells of the row below.
    pub below: u64,
    /// Twos among the two cells beside.
    pub beside: u64,
    /// Twos that the ones of the three rows add up to.
    pub carried: u64,
}

impl Count {
    /// The numbers in four planes: bit `j` of plane `k` weighs `2^k`.
    #[inline(always)]
    fn planes(self) -> [u64; 4]
        ensures { (j : ℕ) → number_in_planes result j ≡ number_at self j }
    {
        let outer = half_adder(self.above, self.below);
        let inner = half_adder(self.beside, self.carried);
        let twos = half_adder(outer.ones, inner.ones);
        [
            self.ones,
            twos.ones,
            outer.twos ^ inner.twos ^ twos.twos,
            outer.twos & inner.twos,
        ]
    }
}

/// A way to compute the next state of 64 cells.
pub trait Branch {
    ghost use Rattle.life_model.specs.Rule.{Rule};

    // The rule by which it does so.
    ghost is_of: { Self → Rule → Type 0 };

    /// The next state of the cells of `here`, which have `count` live neighbours.
    fn next(&self, here: u64, count: Count) -> u64
        ensures { (rule : Rule) → is_of self.now rule → (j : ℕ) → j < 64 → number_at count j ≤ 8 →
            bit_at result j ≡ next_state rule (bit_at here j) (number_at count j) };
}

/// Conway's Life, B3/S23.
#[derive(Clone, Copy)]
pub struct Life;

impl Branch for Life {
    ghost use Rattle.std.specs.Prelude.{◌≡◌};
    ghost use Rattle.life_cells.specs.Rules.{life};

    ghost is_of = { λ _ rule. rule ≡ life };

    // The number is 3, or it is 2 and the cell is live, only if exactly one of the four twos is set.
    #[inline(always)]
    fn next(&self, here: u64, count: Count) -> u64 {
        let outer = half_adder(count.above, count.below);
        let inner = half_adder(count.beside, count.carried);
        (outer.ones ^ inner.ones) & !(outer.twos | inner.twos) & (count.ones | here)
    }
}

/// At each of 64 places the bit of `word`, flipped if `bit` and `more` are set.
#[inline(always)]
fn xor_where(bit: u64, word: u64, more: u64) -> u64
    ensures { (j : ℕ) → bit_at result j ≡ xor_if (bit_at bit j) (bit_at word j) (bit_at more j) }
{
    word ^ (bit & more)
}

/// The coefficients of the polynomial of two bits, over the field of two elements, that has these values: its algebraic normal
/// form, by the Möbius transform.
fn four_coefficients(words: [u64; 4]) -> [u64; 4]
    ensures { (j a b : ℕ) → a < 2 → b < 2 →
        sum_of_four (λ n. bit_at (slice_index result n) j) a b ≡
        bit_at (slice_index words (a + 2 * b)) j }
{
    let both = words[0] ^ words[1];
    [
        words[0],
        both,
        words[0] ^ words[2],
        both ^ words[2] ^ words[3],
    ]
}

/// The coefficients of the polynomial that has these values at the numbers 0 to 8: eight by the Möbius transform of
/// three bits, and the ninth for the number 8.
fn coefficients(words: &[u64; 9]) -> [u64; 9]
    ensures { (j number : ℕ) → number ≤ 8 →
        polynomial_at (λ n. bit_at (slice_index result n) j) number ≡
        bit_at (slice_index words.now number) j }
{
    let low = four_coefficients([words[0], words[1], words[2], words[3]]);
    let high = four_coefficients([
        words[0] ^ words[4],
        words[1] ^ words[5],
        words[2] ^ words[6],
        words[3] ^ words[7],
    ]);
    [
        low[0],
        low[1],
        low[2],
        low[3],
        high[0],
        high[1],
        high[2],
        high[3],
        words[0] ^ words[8],
    ]
}

/// Any rule, in its algebraic normal form: whether a cell lives next is a polynomial, over the field of two elements,
/// of the bits of the number of its live neighbours. Such a sum, by exclusive or, is less work than choices. `dead` has
/// each coefficient for a dead cell, as a word of ones or of zeros, and `turn` has what a live cell adds to it.
#[derive(Clone, Copy)]
pub struct RulePolynomial {
    dead: [u64; 9],
    turn: [u64; 9],
}

impl RulePolynomial {
    /// The polynomial of a rule.
    pub fn of(rule: &Rule) -> RulePolynomial
        ensures { IsPolynomialOf result rule.now }
    {
        let mut dead = [0; 9];
        let mut live = [0; 9];
        for number in 0..9 {
            dead[number] = word_of(rule.born(number as u32));
            live[number] = word_of(rule.stays(number as u32));
        }
        RulePolynomial::between(&coefficients(&dead), &coefficients(&live))
    }

    /// The polynomial with these coefficients for a dead cell and those for a live one.
    fn between(dead: &[u64; 9], live: &[u64; 9]) -> RulePolynomial
        ensures dead { (j n : ℕ) → n ≤ 8 →
            term_at result 0 j n ≡ bit_at (slice_index dead.now n) j }
        ensures live { (j n : ℕ) → n ≤ 8 →
            term_at result 1 j n ≡ bit_at (slice_index live.now n) j }
    {
        let mut turn = [0; 9];
        for number in 0..9 {
            turn[number] = dead[number] ^ live[number];
        }
        RulePolynomial { dead: *dead, turn }
    }

    /// The coefficients at a place for the cells of `here`.
    #[inline(always)]
    fn at(&self, here: u64, place: usize) -> u64
        requires { place ≤ 8 }
        ensures { (j : ℕ) → bit_at result j ≡ term_at self.now (bit_at here j) j place }
    {
        xor_where(here, self.dead[place], self.turn[place])
    }
}

impl Branch for RulePolynomial {
    ghost use Rattle.life_plane.specs.Logics.{IsPolynomialOf};

    ghost is_of = { IsPolynomialOf };

    #[inline(always)]
    fn next(&self, here: u64, count: Count) -> u64 {
        let [ones, twos, fours, eights] = count.planes();
        let none = xor_where(ones, self.at(here, 0), self.at(here, 1));
        let two = xor_where(ones, self.at(here, 2), self.at(here, 3));
        let four = xor_where(ones, self.at(here, 4), self.at(here, 5));
        let six = xor_where(ones, self.at(here, 6), self.at(here, 7));
        let low = xor_where(twos, none, two);
        let high = xor_where(twos, four, six);
        let seven = xor_where(fours, low, high);
        xor_where(eights, seven, self.at(here, 8))
    }
}

/// A rule, as it acts on 64 cells at once.
#[derive(Clone, Copy)]
pub enum Logic {
    /// Conway's Life, B3/S23.
    Life,
    /// Any rule.
    General(RulePolynomial),
}

impl Logic {
    /// The fastest logic for a rule.
    pub fn of(rule: &Rule) -> Logic
        ensures { IsLogicOf result rule.now }
    {
        if *rule == Rule::life() {
            Logic::Life
        } else {
            Logic::General(RulePolynomial::of(rule))
        }
    }

    /// The next state of the cells of `here`, which have `count` live neighbours: each bit is set where a cell with that state
    /// and that number of live neighbours lives in the next generation.
    pub fn next(&self, here: u64, count: Count) -> u64
        ensures { (rule : Rule) → IsLogicOf self.now rule → (j : ℕ) → j < 64 →
            number_at count j ≤ 8 →
            bit_at result j ≡ next_state rule (bit_at here j) (number_at count j) }
    {
        match self {
            Logic::Life => Life.next(here, count),
            Logic::General(branch) => branch.next(here, count),
        }
    }
}
