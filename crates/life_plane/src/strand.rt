//! Rows of 64 cells, and the number of live neighbours of each cell, all 64 at once.
ghost use Rattle.std.specs.Prelude.{◌≡◌, ℕ, ◌+◌, ◌*◌, ◌<◌, slice_index};
ghost use Rattle.std.specs.Int.{bit_at};
ghost use Rattle.life_plane.specs.Bits.{wide_row, IsStrandOf, neighbour_count, number_in_planes};

use crate::adders::{full_adder, half_adder};

/// A row of 64 cells, and the cells to the left and to the right of each: bit `j` of `here` is the cell in column `j`, bit `j`
/// of `west` the cell to its left and bit `j` of `east` the cell to its right.
#[derive(Clone, Copy, PartialEq, Eq, Debug)]
pub struct Strand {
    pub west: u64,
    pub here: u64,
    pub east: u64,
}

impl Strand {
    /// The strand of a row of a tile. `left` and `right` are the same row of the tiles to its left and to its right.
    pub fn of(left: u64, row: u64, right: u64) -> Strand
        ensures { IsStrandOf result (wide_row left row right) }
    {
        Strand {
            west: (row << 1) | (left >> 63),
            here: row,
            east: (row >> 1) | (right << 63),
        }
    }
}

/// For each column `j`, the number of live cells among the eight around the middle one: bit `j` of `up.west`, `up.here`,
/// `up.east`, `mid.west`, `mid.east`, `down.west`, `down.here` and `down.east`. Bit `j` of plane `k` weighs `2^k`, and in each
/// column the four planes add up to the number.
pub fn count_planes(up: Strand, mid: Strand, down: Strand) -> [u64; 4]
    ensures { (j : ℕ) → number_in_planes result j ≡ neighbour_count up mid down j }
{
    let above = full_adder(up.west, up.here, up.east);
    let beside = half_adder(mid.west, mid.east);
    let below = full_adder(down.west, down.here, down.east);
    let ones = full_adder(above.ones, beside.ones, below.ones);
    let twos = full_adder(above.twos, beside.twos, below.twos);
    let carried = half_adder(ones.twos, twos.ones);
    let fours = half_adder(twos.twos, carried.twos);
    [ones.ones, carried.ones, fours.ones, fours.twos]
}
