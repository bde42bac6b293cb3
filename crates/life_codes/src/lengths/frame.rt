//! The least and the greatest places of cells.
ghost use Rattle.std.specs.Prelude.{◌≡◌, ◌+◌, ◌/◌, ◌-ℤ◌, ◌<◌, All, IfSome, IsTrue, length, nat_abs, pos};
ghost use Rattle.life_model.specs.Symmetry.{turn};
ghost use Rattle.life_cells.specs.Limits.{IsPlace};
ghost use Rattle.life_cells.specs.Orients.{orientation};
ghost use Rattle.life_codes.specs.Lengths.Frames.{IsBounded, IsInFrame, IsTinyFrame, cell_in_frame, frame_of, strips_of, turned_frame, wide_of};
ghost use Rattle.life_codes.specs.Lengths.Words.{IsSmallFrame};

use life_cells::Orient;

/// The least and the greatest places of cells.
#[derive(Clone, Copy)]
pub struct Frame {
    pub left: i32,
    pub top: i32,
    pub right: i32,
    pub bottom: i32,
}

/// The frame of cells, if there are any.
pub fn frame_of(cells: &[(i32, i32)]) -> Option<Frame>
    requires placed { All IsPlace cells.now }
    ensures some { IfSome result (λ f. 0 < length cells.now) }
    ensures frame { IfSome result (λ f. f ≡ frame_of cells.now) }
    ensures bounded { IfSome result IsBounded }
{
    if cells.is_empty() {
        return None;
    }
    let (mut left, mut top) = cells[0];
    let (mut right, mut bottom) = cells[0];
    for cell in cells {
        left = left.min(cell.0);
        top = top.min(cell.1);
        right = right.max(cell.0);
        bottom = bottom.max(cell.1);
    }
    Some(Frame {
        left,
        top,
        right,
        bottom,
    })
}

/// The frame of these sides.
fn framed(left: i32, top: i32, right: i32, bottom: i32) -> Frame
    ensures { result ≡ record { left = left; top = top; right = right; bottom = bottom } }
{
    Frame {
        left,
        top,
        right,
        bottom,
    }
}

impl Frame {
    /// The frame of the images of the cells of this frame.
    pub fn turned(self, orient: Orient) -> Frame
        requires bounded { IsBounded self }
        ensures frame { result ≡ turned_frame (orientation orient) self }
        ensures bounded { IsBounded result }
    {
        let (left, top) = (self.left, self.top);
        let (right, bottom) = (self.right, self.bottom);
        match orient {
            Orient::Same => framed(left, top, right, bottom),
            Orient::FlipX => framed(-right, top, -left, bottom),
            Orient::FlipY => framed(left, -bottom, right, -top),
            Orient::Half => framed(-right, -bottom, -left, -top),
            Orient::Swap => framed(top, left, bottom, right),
            Orient::SwapFlipX => framed(-bottom, left, -top, right),
            Orient::SwapFlipY => framed(top, -right, bottom, -left),
            Orient::SwapHalf => framed(-bottom, -right, -top, -left),
        }
    }

    /// The width.
    pub fn width(self) -> usize
        requires { IsBounded self }
        ensures { result ≡ wide_of self }
    {
        (self.right - self.left + 1) as usize
    }

    /// The height.
    pub fn height(self) -> usize
        requires { IsBounded self }
        ensures { result ≡ nat_abs (self.bottom -ℤ self.top) + 1 }
    {
        (self.bottom - self.top + 1) as usize
    }

    /// The number of strips of five rows that it takes.
    pub fn strips(self) -> usize
        requires { IsBounded self }
        ensures { result ≡ strips_of self }
    {
        ((self.bottom - self.top + 5) as usize) / 5
    }

    /// True where it is at most 64 wide and at most 64 high.
    pub fn is_small(self) -> bool
        requires { IsBounded self }
        ensures { IsTrue result → IsSmallFrame self }
    {
        self.width() <= 64 && self.height() <= 64
    }

    /// True where it is at most 5 wide and at most 5 high.
    pub fn is_tiny(self) -> bool
        requires { IsBounded self }
        ensures { IsTrue result → IsTinyFrame self }
    {
        self.width() <= 5 && self.height() <= 5
    }

    /// True where its columns of five rows, and its rows of five columns, are few for `count` cells: at most about 64 for each
    /// cell.
    pub fn is_dense(self, count: usize) -> bool
        requires { IsBounded self }
    {
        let turned = self.turned(Orient::Swap);
        let columns = self.width() * self.strips();
        let rows = turned.width() * turned.strips();
        columns / 64 <= count && rows / 64 <= count
    }
}

/// The image of the cell, counted from the corner of the frame.
pub fn place_in(cell: (i32, i32), orient: Orient, frame: Frame) -> (usize, usize)
    requires placed { IsPlace cell }
    requires bounded { IsBounded frame }
    requires inside { IsInFrame frame (turn (orientation orient) cell) }
    ensures place { (pos result.0, pos result.1) ≡ cell_in_frame (orientation orient) frame cell }
    ensures column { result.0 < wide_of frame }
    ensures strip { result.1 / 5 < strips_of frame }
{
    let (x, y) = orient.turn(cell);
    let (column, row) = ((x - frame.left) as u32, (y - frame.top) as u32);
    (column as usize, row as usize)
}
