//! The numbers of live cells in rows of three.
ghost use Rattle.life_plane.specs.Bits.{wide_row};
ghost use Rattle.life_plane.specs.Rows.{IsRowSumsOf};

use crate::adders::{Sum, full_adder};

/// For each of 64 cells of a row, the number of live cells among the two beside it, and among those two and itself.
#[derive(Clone, Copy, PartialEq, Eq, Debug)]
pub struct RowSums {
    /// 0 to 2: the cells to the west and to the east.
    pub two: Sum,
    /// 0 to 3: those, and the cell itself.
    pub three: Sum,
}

/// The sums of a row of 64 cells: bit `j` of `here` is the cell in column `j`. `west` and `east` are the same row of
/// the tiles to the west and to the east: bit 63 of `west` is beside bit 0 of `here`, and bit 0 of `east` is beside bit
/// 63.
#[inline(always)]
pub fn sums(west: u64, here: u64, east: u64) -> RowSums
    ensures { IsRowSumsOf result (wide_row west here east) }
{
    // The cells beyond both edges are kept apart: in their columns one of the shifted rows has no bit.
    let beyond = (west >> 63) | (east << 63);
    let two = full_adder(here << 1, here >> 1, beyond);
    let three = Sum {
        ones: two.ones ^ here,
        twos: two.twos | (two.ones & here),
    };
    RowSums { two, three }
}
