//! Grids of the values of columns, strip by strip.
ghost use Rattle.std.specs.Prelude.{◌≡◌, ◌*◌, ◌/◌, ◌<◌, ℕ, All, IsTrue, OnOk, length, map, pos};
ghost use Rattle.life_model.specs.Symmetry.{turn};
ghost use Rattle.life_cells.specs.Limits.{IsPlace};
ghost use Rattle.life_cells.specs.Dots.{weights};
ghost use Rattle.life_cells.specs.Orients.{orientation};
ghost use Rattle.life_codes.specs.Lengths.Frames.{IsBounded, IsInFrame, cell_in_frame, strips_of, wide_of};
ghost use Rattle.life_codes.specs.Lengths.Grids.{HoldsWeights, both_texts};

use crate::lengths::{Frame, place_in};
use life_cells::Orient;
use std::alloc::{AllocError, Global};

/// The values of columns of five rows, strip by strip.
#[derive(Drop)]
pub struct Grid {
    pub values: Vec<u8>,
    /// The number of columns of a strip.
    pub wide: usize,
    pub strips: usize,
}

impl Grid {
    /// A grid without columns. Takes no memory.
    pub fn new(alloc: Global) -> Grid {
        Grid {
            values: Vec::new(alloc),
            wide: 0,
            strips: 0,
        }
    }

    /// Sets the number of strips to 0.
    pub fn forget(&mut self)
        ensures { self.new.strips ≡ 0 }
    {
        self.strips = 0;
    }

    /// True where it has the columns of another.
    pub fn is_same(&self, other: &Grid) -> bool
        ensures strips { IsTrue result → self.now.strips ≡ other.now.strips }
        ensures texts { IsTrue result →
            both_texts self.now.values.items self.now.wide self.now.strips ≡
            both_texts other.now.values.items other.now.wide other.now.strips }
    {
        self.wide == other.wide && self.strips == other.strips && self.values == other.values
    }
}

/// Adds to each column the weight there of these cells, turned by the map. The turned cells are in the frame, and `values` has
/// the columns of each of its strips.
fn fill(values: &mut [u8], cells: &[(i32, i32)], orient: Orient, frame: Frame)
    requires room { length values.old ≡ strips_of frame * wide_of frame }
    requires empty { All (λ v. v ≡ 0) values.old }
    requires bounded { IsBounded frame }
    requires placed { All IsPlace cells.now }
    requires inside { All (λ c. IsInFrame frame (turn (orientation orient) c)) cells.now }
    requires small { (k x : ℕ) →
        weights k (map (cell_in_frame (orientation orient) frame) cells.now) x < 32 }
    ensures len { length values.new ≡ length values.old }
    ensures weights { HoldsWeights values.new (wide_of frame) (strips_of frame)
        (map (cell_in_frame (orientation orient) frame) cells.now) }
{
    let wide = frame.width();
    for cell in cells {
        let (column, row) = place_in(*cell, orient, frame);
        values[row / 5 * wide + column] += 1 << (row % 5);
    }
}

/// Makes a grid of the weights of these cells, turned by the map. The turned cells are in the frame.
pub fn make_grid(
    values: &mut Vec<u8>,
    cells: &[(i32, i32)],
    orient: Orient,
    frame: Frame,
) -> Result<(), AllocError>
    requires bounded { IsBounded frame }
    requires placed { All IsPlace cells.now }
    requires inside { All (λ c. IsInFrame frame (turn (orientation orient) c)) cells.now }
    requires small { (k x : ℕ) →
        weights k (map (cell_in_frame (orientation orient) frame) cells.now) x < 32 }
    ensures room { OnOk result (length values.new.items ≡ strips_of frame * wide_of frame) }
    ensures weights { OnOk result
        (HoldsWeights values.new.items (wide_of frame) (strips_of frame)
        (map (cell_in_frame (orientation orient) frame) cells.now)) }
{
    values.clear();
    values.resize(frame.strips() * frame.width(), 0)?;
    fill(values, cells, orient, frame);
    Ok(())
}
