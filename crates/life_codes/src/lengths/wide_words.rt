//! The lengths of the texts of strips of any width, computed from words that have a bit for each column with a cell.
ghost use Rattle.std.specs.Prelude.{◌≡◌, ℕ, ◌+◌, ◌*◌, ◌/◌, ◌^◌, ◌<◌, ◌≤◌, All, IfOk, T, false, length, true};
ghost use Rattle.std.specs.Int.{bit_at};
ghost use Rattle.life_model.specs.Generation.{from_list, is_rising};
ghost use Rattle.life_model.specs.Symmetry.{Half, Same, Swap, SwapHalf};
ghost use Rattle.life_cells.specs.Limits.{IsPlace};
ghost use Rattle.life_cells.specs.Orients.{orientation};
ghost use Rattle.life_cells.specs.Wechsler.{columns_text, zeros};
ghost use Rattle.life_codes.specs.Lengths.Frames.{IsBounded, frame_of, strips_of, turned_frame, wide_of};
ghost use Rattle.life_codes.specs.Lengths.Grids.{columns_from};
ghost use Rattle.life_codes.specs.Lengths.WideWords.{IsMarkedWithin, IsRoomFor, wide_columns, wide_text, words_in};
ghost use Rattle.life_codes.specs.Lengths.Words.{AreLengths};

use crate::lengths::frame::Frame;
use crate::lengths::measure::{Lengths, mark_length, zeros_length};
use crate::lengths::wide_marks::{WideMarks, mark_wide, words_per_strip};
use crate::lengths::words::{FourLengths, next_column};
use life_cells::Orient;
use std::alloc::AllocError;

/// The lengths of the text of `gap` columns of 0 before one that is not 0, read from either side. They are all the columns since
/// the last one that is not 0, which is right before `place`, or since the first column, where `place` is 0.
fn gap_lengths(gap: usize, place: usize) -> Lengths
    ensures forward { result.forward ≡ length (zeros gap) }
    ensures later { 0 < place → result.backward ≡ length (zeros gap) }
    ensures first { place ≤ 0 → result.backward ≡ 0 }
    ensures small { result.forward ≤ gap }
    ensures lesser { result.backward ≤ result.forward }
{
    if gap == 0 {
        return Lengths {
            forward: 0,
            backward: 0,
        };
    }
    let run = zeros_length(gap);
    Lengths {
        forward: run,
        backward: if place > 0 { run } else { 0 },
    }
}

/// The number of bits that are set from the lowest on, and the bits after those.
fn next_gap(rest: u64) -> (usize, u64)
    requires { rest < 2 ^ 63 }
    ensures small { result.0 < 64 }
    ensures ones { (i : ℕ) → i < result.0 → bit_at rest i ≡ 1 }
    ensures rest { result.1 ≡ rest / 2 ^ result.0 }
{
    let ones = rest.trailing_ones();
    (ones as usize, rest >> ones)
}

/// The lengths of the text of a strip in which the columns that are not 0 are marked, in `per` words from `first` on.
fn strip_lengths(words: &[u64], first: usize, per: usize, wide: usize) -> Lengths
    requires per { per ≡ words_in wide }
    requires room { first + per ≤ length words.now }
    requires beyond { IsMarkedWithin words.now first wide }
    ensures forward { result.forward ≡
        length (columns_text 0 (columns_from false (wide_columns words.now first wide))) }
    ensures backward { result.backward ≡
        length (columns_text 0 (columns_from true (wide_columns words.now first wide))) }
    ensures small_forward { result.forward ≤ wide }
    ensures small_backward { result.backward ≤ wide }
{
    let mut place = 0;
    let mut forward = 0;
    let mut backward = 0;
    'words: for index in 0..per {
        let mut rest = words[first + index];
        let mut column = 64 * index;
        'columns: while rest != 0 {
            let (zeros, after) = next_column(rest);
            let run = gap_lengths(column + zeros - place, place);
            let (more, later) = next_gap(after);
            forward += run.forward + 1 + more;
            backward += run.backward + 1 + more;
            column += zeros + 1 + more;
            place = column;
            rest = later;
        }
    }
    if place > 0 {
        backward += zeros_length(wide - place);
    }
    Lengths { forward, backward }
}

/// The lengths of the text of the strips of a frame.
fn strips_lengths(words: &[u64], frame: Frame) -> Lengths
    requires bounded { IsBounded frame }
    requires room { length words.now ≡ strips_of frame * words_in (wide_of frame) }
    requires beyond { (k : ℕ) → k < strips_of frame →
        IsMarkedWithin words.now (k * words_in (wide_of frame)) (wide_of frame) }
    ensures forward { result.forward ≡
        length (wide_text words.now (wide_of frame) (strips_of frame) false) }
    ensures backward { result.backward ≡
        length (wide_text words.now (wide_of frame) (strips_of frame) true) }
{
    let wide = frame.width();
    let per = words_per_strip(frame);
    let mut forward = 0;
    let mut backward = 0;
    'strips: for strip in 0..frame.strips() {
        let lengths = strip_lengths(words, strip * per, per, wide);
        let mark = mark_length(strip);
        forward += lengths.forward + mark;
        backward += lengths.backward + mark;
    }
    Lengths { forward, backward }
}

/// The lengths of the text of the strips that a frame takes when it is turned.
fn turned_lengths(words: &[u64], frame: Frame, orient: Orient) -> Lengths
    requires bounded { IsBounded frame }
    requires room { IsRoomFor words.now (orientation orient) frame }
    requires beyond { (k : ℕ) → k < strips_of (turned_frame (orientation orient) frame) →
        IsMarkedWithin words.now (k * words_in (wide_of (turned_frame (orientation orient) frame)))
        (wide_of (turned_frame (orientation orient) frame)) }
    ensures forward { result.forward ≡
        length (wide_text words.now (wide_of (turned_frame (orientation orient) frame))
        (strips_of (turned_frame (orientation orient) frame)) false) }
    ensures backward { result.backward ≡
        length (wide_text words.now (wide_of (turned_frame (orientation orient) frame))
        (strips_of (turned_frame (orientation orient) frame)) true) }
{
    strips_lengths(words, frame.turned(orient))
}

/// The lengths of the texts of cells and of their mirror image, turned by each of four maps. `marks` is memory for their marks.
pub fn wide_lengths(
    marks: &mut WideMarks,
    cells: &[(i32, i32)],
    frame: Frame,
) -> Result<FourLengths, AllocError>
    requires some { 0 < length cells.now }
    requires rising { T (is_rising cells.now) }
    requires placed { All IsPlace cells.now }
    requires frame { frame ≡ frame_of cells.now }
    requires bounded { IsBounded frame }
    ensures same { IfOk result (λ lengths. AreLengths lengths.same (from_list cells.now) Same) }
    ensures half { IfOk result (λ lengths. AreLengths lengths.half (from_list cells.now) Half) }
    ensures swap { IfOk result (λ lengths. AreLengths lengths.swap (from_list cells.now) Swap) }
    ensures swap_half { IfOk result
        (λ lengths. AreLengths lengths.swap_half (from_list cells.now) SwapHalf) }
{
    mark_wide(marks, cells, frame)?;
    Ok(FourLengths {
        same: turned_lengths(&marks.same, frame, Orient::Same),
        half: turned_lengths(&marks.flip, frame, Orient::FlipY).mirrored(),
        swap: turned_lengths(&marks.swap, frame, Orient::Swap),
        swap_half: turned_lengths(&marks.swap_flip, frame, Orient::SwapFlipY).mirrored(),
    })
}
