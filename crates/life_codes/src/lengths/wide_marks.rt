//! The columns of strips of any width that have a cell, under four maps whose texts, read from either side, are those of all
//! eight. Two of them take a cell to the same column, and so do the other two.
ghost use Rattle.std.specs.Prelude.{◌≡◌, ◌+◌, ◌*◌, ◌/◌, ◌<◌, ◌≤◌, ◌-ℤ◌, All, OnOk, length, nat_abs};
ghost use Rattle.life_model.specs.Symmetry.{FlipY, Same, Swap, SwapFlipY};
ghost use Rattle.life_cells.specs.Limits.{IsPlace};
ghost use Rattle.life_codes.specs.Lengths.Frames.{IsBounded, IsInFrame, strips_of, turned_frame, wide_of};
ghost use Rattle.life_codes.specs.Lengths.WideWords.{HoldsWideTurned, IsRoomFor, IsPlaceOfRow, with_bit, words_in};

use crate::lengths::frame::{Frame, place_in};
use life_cells::Orient;
use std::alloc::{AllocError, Global};

/// The strips of cells, turned by each of four maps, as words of bits.
#[derive(Drop)]
pub struct WideMarks {
    pub same: Vec<u64>,
    pub flip: Vec<u64>,
    pub swap: Vec<u64>,
    pub swap_flip: Vec<u64>,
}

impl WideMarks {
    /// The strips of no cells. Takes no memory.
    pub fn new(alloc: Global) -> WideMarks {
        WideMarks {
            same: Vec::new(alloc),
            flip: Vec::new(alloc),
            swap: Vec::new(alloc),
            swap_flip: Vec::new(alloc),
        }
    }
}

/// The places where the words begin of the strip that a row is in, and of the strip that it is in upside down.
#[derive(Clone, Copy)]
pub struct RowPlace {
    pub row: usize,
    pub same: usize,
    pub flip: usize,
}

/// The number of words of bits that the columns of a strip of the frame take.
pub fn words_per_strip(frame: Frame) -> usize
    requires { IsBounded frame }
    ensures { result ≡ words_in (wide_of frame) }
{
    frame.width().div_ceil(64)
}

/// The places where the words of the strips of a row begin: `known`, if it is for this row.
#[inline(always)]
fn place_of(row: usize, known: RowPlace, frame: Frame) -> RowPlace
    requires bounded { IsBounded frame }
    requires row { row ≤ nat_abs (frame.bottom -ℤ frame.top) }
    requires known { known.row ≤ nat_abs (frame.bottom -ℤ frame.top) → IsPlaceOfRow known frame }
    ensures row { result.row ≡ row }
    ensures place { IsPlaceOfRow result frame }
{
    if known.row == row {
        return known;
    }
    let per = words_per_strip(frame);
    RowPlace {
        row,
        same: row / 5 * per,
        flip: (frame.height() - 1 - row) / 5 * per,
    }
}

/// Marks a column of the strip whose words begin at `first`.
#[inline(always)]
fn mark(words: &mut [u64], first: usize, column: usize)
    requires { first + column / 64 < length words.old }
    ensures { words.new ≡ with_bit words.old first column }
{
    words[first + column / 64] |= 1 << (column % 64);
}

/// Marks the columns of cells of the frame, turned by each of the four maps.
fn mark_all(
    same: &mut [u64],
    flip: &mut [u64],
    swap: &mut [u64],
    swap_flip: &mut [u64],
    cells: &[(i32, i32)],
    frame: Frame,
)
    requires same { IsRoomFor same.old Same frame }
    requires flip { IsRoomFor flip.old FlipY frame }
    requires swap { IsRoomFor swap.old Swap frame }
    requires swap_flip { IsRoomFor swap_flip.old SwapFlipY frame }
    requires no_same { All (λ w. w ≡ 0) same.old }
    requires no_flip { All (λ w. w ≡ 0) flip.old }
    requires no_swap { All (λ w. w ≡ 0) swap.old }
    requires no_swap_flip { All (λ w. w ≡ 0) swap_flip.old }
    requires bounded { IsBounded frame }
    requires placed { All IsPlace cells.now }
    requires inside { All (IsInFrame frame) cells.now }
    ensures same { HoldsWideTurned same.new Same frame cells.now }
    ensures flip { HoldsWideTurned flip.new FlipY frame cells.now }
    ensures swap { HoldsWideTurned swap.new Swap frame cells.now }
    ensures swap_flip { HoldsWideTurned swap_flip.new SwapFlipY frame cells.now }
    ensures same_room { IsRoomFor same.new Same frame }
    ensures flip_room { IsRoomFor flip.new FlipY frame }
    ensures swap_room { IsRoomFor swap.new Swap frame }
    ensures swap_flip_room { IsRoomFor swap_flip.new SwapFlipY frame }
{
    let down = words_per_strip(frame.turned(Orient::Swap));
    let mut place = RowPlace {
        row: frame.height(),
        same: 0,
        flip: 0,
    };
    for cell in cells {
        let (column, row) = place_in(*cell, Orient::Same, frame);
        let behind = frame.width() - 1 - column;
        place = place_of(row, place, frame);
        mark(same, place.same, column);
        mark(flip, place.flip, column);
        mark(swap, column / 5 * down, row);
        mark(swap_flip, behind / 5 * down, row);
    }
}

/// Makes words for the strips of a frame, with no column marked.
fn clear(words: &mut Vec<u64>, frame: Frame) -> Result<(), AllocError>
    requires { IsBounded frame }
    ensures room { OnOk result
        (length words.new.items ≡ strips_of frame * words_in (wide_of frame)) }
    ensures empty { OnOk result (All (λ w. w ≡ 0) words.new.items) }
{
    words.clear();
    words.resize(frame.strips() * words_per_strip(frame), 0)
}

/// Marks these cells, and no others, turned by each of the four maps. They are in the frame.
pub fn mark_wide(
    marks: &mut WideMarks,
    cells: &[(i32, i32)],
    frame: Frame,
) -> Result<(), AllocError>
    requires bounded { IsBounded frame }
    requires placed { All IsPlace cells.now }
    requires inside { All (IsInFrame frame) cells.now }
    ensures same { OnOk result (HoldsWideTurned marks.new.same.items Same frame cells.now) }
    ensures flip { OnOk result (HoldsWideTurned marks.new.flip.items FlipY frame cells.now) }
    ensures swap { OnOk result (HoldsWideTurned marks.new.swap.items Swap frame cells.now) }
    ensures swap_flip { OnOk result
        (HoldsWideTurned marks.new.swap_flip.items SwapFlipY frame cells.now) }
    ensures same_room { OnOk result (IsRoomFor marks.new.same.items Same frame) }
    ensures flip_room { OnOk result (IsRoomFor marks.new.flip.items FlipY frame) }
    ensures swap_room { OnOk result (IsRoomFor marks.new.swap.items Swap frame) }
    ensures swap_flip_room { OnOk result (IsRoomFor marks.new.swap_flip.items SwapFlipY frame) }
{
    clear(&mut marks.same, frame.turned(Orient::Same))?;
    clear(&mut marks.flip, frame.turned(Orient::FlipY))?;
    clear(&mut marks.swap, frame.turned(Orient::Swap))?;
    clear(&mut marks.swap_flip, frame.turned(Orient::SwapFlipY))?;
    mark_all(
        &mut marks.same,
        &mut marks.flip,
        &mut marks.swap,
        &mut marks.swap_flip,
        cells,
        frame,
    );
    Ok(())
}
