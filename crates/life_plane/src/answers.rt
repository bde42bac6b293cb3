//! The next state of 64 cells at once, by the answers of a rule.
ghost use Rattle.std.specs.Prelude.{◌≡◌, ℕ, ◌+◌, ◌*◌, ◌<◌, ◌≤◌, slice_index};
ghost use Rattle.std.specs.Int.{bit_at};
ghost use Rattle.life_plane.specs.Flags.{as_bit};
ghost use Rattle.life_plane.specs.Bits.{neighbour_count, next_state, number_in_planes, IsAnswersOf};
ghost use Rattle.life_model.specs.Rule.{Rule, born, stays};

use crate::adders::choose;
use crate::strand::{Strand, count_planes};
use life_cells::Rule;

/// For each count from 0 to 8 a word of ones if the rule's answer is a live cell, and of zeros if not.
#[derive(Clone, Copy)]
pub struct Answers {
    pub dead: [u64; 9],
    pub live: [u64; 9],
}

impl Answers {
    /// The answers of a rule.
    pub fn of(rule: &Rule) -> Answers
        ensures { IsAnswersOf result rule.now }
    {
        let mut dead = [0; 9];
        let mut live = [0; 9];
        for count in 0..9 {
            dead[count] = word_of(rule.born(count as u32));
            live[count] = word_of(rule.stays(count as u32));
        }
        Answers { dead, live }
    }
}

/// A word of ones for true, and of zeros for false.
#[inline(always)]
pub fn word_of(answer: bool) -> u64
    ensures { (j : ℕ) → j < 64 → bit_at result j ≡ as_bit answer }
{
    if answer { u64::MAX } else { 0 }
}

/// At each place, the bit there of the word of the table that the planes' number selects.
fn select(planes: &[u64; 4], table: &[u64; 9]) -> u64
    ensures { (j : ℕ) → number_in_planes planes.now j ≤ 8 →
        bit_at result j ≡ bit_at (slice_index table.now (number_in_planes planes.now j)) j }
{
    let none = choose(planes[0], table[0], table[1]);
    let twos = choose(planes[0], table[2], table[3]);
    let fours = choose(planes[0], table[4], table[5]);
    let sixes = choose(planes[0], table[6], table[7]);
    let low = choose(planes[1], none, twos);
    let high = choose(planes[1], fours, sixes);
    let seven = choose(planes[2], low, high);
    choose(planes[3], seven, table[8])
}

/// The next generation of the 64 cells of `mid.here`, by the answers of a rule.
pub fn next_row_by(up: Strand, mid: Strand, down: Strand, answers: &Answers) -> u64
    ensures { (rule : Rule) → IsAnswersOf answers.now rule → (j : ℕ) → j < 64 →
        bit_at result j ≡ next_state rule (bit_at mid.here j) (neighbour_count up mid down j) }
{
    let planes = count_planes(up, mid, down);
    let dead = select(&planes, &answers.dead);
    let live = select(&planes, &answers.live);
    choose(mid.here, dead, live)
}

/// The next generation of the 64 cells of `mid.here`, where `up` and `down` are the rows above and below.
pub fn next_row(up: Strand, mid: Strand, down: Strand, rule: &Rule) -> u64
    ensures { (j : ℕ) → j < 64 →
        bit_at result j ≡ next_state rule.now (bit_at mid.here j) (neighbour_count up mid down j) }
{
    next_row_by(up, mid, down, &Answers::of(rule))
}
