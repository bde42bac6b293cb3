//! The lengths of the texts of strips, computed from words that have a bit for each column with a cell.
ghost use Rattle.std.specs.Prelude.{◌≡◌, ℕ, ◌/◌, ◌^◌, ◌+◌, ◌<◌, ◌≤◌, All, List, T, false, length, map, true};
ghost use Rattle.std.specs.Int.{bit_at};
ghost use Rattle.life_model.specs.Cell.{Cell};
ghost use Rattle.life_model.specs.Generation.{from_list, is_rising};
ghost use Rattle.life_model.specs.Symmetry.{FlipY, Half, Orientation, Same, Swap, SwapHalf, image_under};
ghost use Rattle.life_cells.specs.Wechsler.{columns_text};
ghost use Rattle.life_cells.specs.Limits.{IsPlace};
ghost use Rattle.life_codes.specs.Lengths.Frames.{IsBounded, cell_in_frame, frame_of, wide_of};
ghost use Rattle.life_codes.specs.Lengths.Grids.{columns_from};
ghost use Rattle.life_codes.specs.Lengths.Words.{AreLengths, HoldsRows, IsFrameOf, IsSmallFrame, AreWithinColumns, word_columns};

use crate::lengths::frame::Frame;
use crate::lengths::marks::{ABOVE, ROWS, columns_of, mark_cells};
use crate::lengths::measure::{Lengths, zeros_length};
use crate::lengths::narrow::{NARROW, narrow_lengths};
use life_cells::Orient;

/// The lengths of the texts of cells and of their mirror image, turned by each of four maps.
#[derive(Clone, Copy)]
pub struct FourLengths {
    pub same: Lengths,
    pub half: Lengths,
    pub swap: Lengths,
    pub swap_half: Lengths,
}

impl FourLengths {
    /// The length of the shortest of the texts that are not swapped.
    pub fn upright(self) -> usize {
        self.same.least().min(self.half.least())
    }

    /// The length of the shortest of the texts that are swapped.
    pub fn swapped(self) -> usize {
        self.swap.least().min(self.swap_half.least())
    }
}

/// The number of bits that are not set before the lowest that is, and the bits after that one.
pub fn next_column(rest: u64) -> (usize, u64)
    requires { 0 < rest }
    ensures small { result.0 < 64 }
    ensures live { bit_at rest result.0 ≡ 1 }
    ensures zeros { (i : ℕ) → i < result.0 → bit_at rest i ≡ 0 }
    ensures rest { result.1 ≡ rest / 2 ^ (result.0 + 1) }
{
    let zeros = rest.trailing_zeros();
    (zeros as usize, rest >> zeros >> 1)
}

/// The lengths of the text of a strip in which the columns that are not 0 are marked, counted from one marked column to
/// the next.
#[inline(never)]
fn long_lengths(word: u64, wide: usize) -> Lengths
    requires narrow { wide ≤ 64 }
    requires beyond { (i : ℕ) → wide ≤ i → bit_at word i ≡ 0 }
    ensures forward { result.forward ≡
        length (columns_text 0 (columns_from false (word_columns wide word))) }
    ensures backward { result.backward ≡
        length (columns_text 0 (columns_from true (word_columns wide word))) }
    ensures small_forward { result.forward ≤ wide }
    ensures small_backward { result.backward ≤ wide }
{
    if word == 0 {
        return Lengths {
            forward: 0,
            backward: 0,
        };
    }
    let (first, after) = next_column(word);
    let lead = zeros_length(first);
    let mut rest = after;
    let mut place = first + 1;
    let mut inner = 1;
    'columns: while rest != 0 {
        let (gap, after) = next_column(rest);
        inner += zeros_length(gap) + 1;
        place += gap + 1;
        rest = after;
    }
    Lengths {
        forward: lead + inner,
        backward: inner + zeros_length(wide - place),
    }
}

/// The lengths of the text of a strip in which the columns that are not 0 are marked.
fn word_lengths(word: u64, wide: usize) -> Lengths
    requires narrow { wide ≤ 64 }
    requires beyond { (i : ℕ) → wide ≤ i → bit_at word i ≡ 0 }
    ensures forward { result.forward ≡
        length (columns_text 0 (columns_from false (word_columns wide word))) }
    ensures backward { result.backward ≡
        length (columns_text 0 (columns_from true (word_columns wide word))) }
    ensures small_forward { result.forward ≤ wide }
    ensures small_backward { result.backward ≤ wide }
{
    if wide <= NARROW {
        narrow_lengths(word, wide)
    } else {
        long_lengths(word, wide)
    }
}

/// The lengths of the texts of cells of a frame and of their mirror image. The cells are in these rows.
#[inline(always)]
fn lengths_down(rows: &[u64], frame: Frame) -> Lengths
    requires room { length rows.now ≡ 69 }
    requires bounded { IsBounded frame }
    requires small { IsSmallFrame frame }
    requires within { AreWithinColumns rows.now (wide_of frame) }
    ensures lengths { (m : Orientation) (cells : List Cell) → IsFrameOf frame m cells →
        HoldsRows rows.now (map (cell_in_frame m frame) cells) →
        AreLengths result (from_list cells) m }
{
    let wide = frame.width();
    let strips = frame.strips();
    let mut forward = strips - 1;
    let mut backward = strips - 1;
    'strips: for strip in 0..strips {
        let word = columns_of(rows, ABOVE + 5 * strip);
        let lengths = word_lengths(word, wide);
        forward += lengths.forward;
        backward += lengths.backward;
    }
    Lengths { forward, backward }
}

/// The lengths of the texts of the cells turned upside down and of their mirror image: the strips are read from the
/// bottom.
#[inline(always)]
fn lengths_up(rows: &[u64], frame: Frame) -> Lengths
    requires room { length rows.now ≡ 69 }
    requires bounded { IsBounded frame }
    requires small { IsSmallFrame frame }
    requires within { AreWithinColumns rows.now (wide_of frame) }
    ensures lengths { (m : Orientation) (cells : List Cell) → IsFrameOf frame m cells →
        HoldsRows rows.now (map (cell_in_frame m frame) cells) →
        AreLengths result (image_under (from_list cells) m) FlipY }
{
    let wide = frame.width();
    let strips = frame.strips();
    let high = frame.height();
    let mut forward = strips - 1;
    let mut backward = strips - 1;
    'strips: for strip in 0..strips {
        let word = columns_of(rows, high - 1 - 5 * strip);
        let lengths = word_lengths(word, wide);
        forward += lengths.forward;
        backward += lengths.backward;
    }
    Lengths { forward, backward }
}

/// The lengths for the mirror image.
fn mirrored(lengths: Lengths) -> Lengths
    ensures forward { result.forward ≡ lengths.backward }
    ensures backward { result.backward ≡ lengths.forward }
{
    Lengths {
        forward: lengths.backward,
        backward: lengths.forward,
    }
}

/// The lengths of the texts of cells and of their mirror image, turned by each of four maps.
pub fn four_lengths(cells: &[(i32, i32)], frame: Frame) -> FourLengths
    requires some { 0 < length cells.now }
    requires rising { T (is_rising cells.now) }
    requires placed { All IsPlace cells.now }
    requires frame { frame ≡ frame_of cells.now }
    requires bounded { IsBounded frame }
    requires small { IsSmallFrame frame }
    ensures same { AreLengths result.same (from_list cells.now) Same }
    ensures half { AreLengths result.half (from_list cells.now) Half }
    ensures swap { AreLengths result.swap (from_list cells.now) Swap }
    ensures swap_half { AreLengths result.swap_half (from_list cells.now) SwapHalf }
{
    let mut rows = [0; ROWS];
    let mut columns = [0; ROWS];
    mark_cells(&mut rows, &mut columns, cells, frame);
    let swapped = frame.turned(Orient::Swap);
    FourLengths {
        same: lengths_down(&rows, frame),
        half: mirrored(lengths_up(&rows, frame)),
        swap: lengths_down(&columns, swapped),
        swap_half: mirrored(lengths_up(&columns, swapped)),
    }
}
