//! Cells of at most five rows and five columns as numbers of five bits a column.
ghost use Rattle.std.specs.Prelude.{◌≡◌, ◌++◌, ◌<◌, ◌≤◌, ◌∷◌, ℕ, All, IfSome, IsTrue, List, OnOk, [], length, min, pos};
ghost use Rattle.life_model.specs.Cell.{Cell};
ghost use Rattle.life_model.specs.Generation.{from_list};
ghost use Rattle.life_cells.specs.Limits.{IsPlace};
ghost use Rattle.life_cells.specs.TextOrder.{least_text};
ghost use Rattle.life_answer.specs.Apgcode.{turned_bodies};
ghost use Rattle.life_codes.specs.Lengths.Frames.{IsBounded, IsInFrame, IsTinyFrame, frame_of};
ghost use Rattle.life_codes.specs.Keys.{AreBelow, AreKeys, ArePlain, IsKey, IsPlain, key_text, key_texts};

use crate::lengths::{Frame, place_in};
use crate::writing::digit;
use life_cells::Orient;
use std::alloc::AllocError;

/// The columns of cells, turned by each of the eight maps. The last column is in the lowest bits.
#[derive(Clone, Copy)]
pub struct Keys {
    pub same: u32,
    pub flip_x: u32,
    pub flip_y: u32,
    pub half: u32,
    pub swap: u32,
    pub swap_flip_x: u32,
    pub swap_flip_y: u32,
    pub swap_half: u32,
}

/// A key with one more cell. The first column is in the lowest bits.
#[inline(always)]
fn with_cell(key: u32, column: usize, row: usize) -> u32
    requires column { column < 5 }
    requires row { row < 5 }
    ensures { (wide : ℕ) (cells : List Cell) → column < wide → IsKey key wide cells →
        IsKey result wide (cells ++ (pos column, pos row) ∷ []) }
{
    key | 1 << (5 * column + row)
}

/// The keys of cells of the frame.
fn keys_of(cells: &[(i32, i32)], frame: Frame) -> Keys
    requires bounded { IsBounded frame }
    requires tiny { IsTinyFrame frame }
    requires placed { All IsPlace cells.now }
    requires inside { All (IsInFrame frame) cells.now }
    ensures { AreKeys result frame cells.now }
{
    let half_frame = frame.turned(Orient::Half);
    let mut keys = Keys {
        same: 0,
        flip_x: 0,
        flip_y: 0,
        half: 0,
        swap: 0,
        swap_flip_x: 0,
        swap_flip_y: 0,
        swap_half: 0,
    };
    for cell in cells {
        let (left, above) = place_in(*cell, Orient::Same, frame);
        let (right, below) = place_in(*cell, Orient::Half, half_frame);
        keys = Keys {
            same: with_cell(keys.same, right, above),
            flip_x: with_cell(keys.flip_x, left, above),
            flip_y: with_cell(keys.flip_y, right, below),
            half: with_cell(keys.half, left, below),
            swap: with_cell(keys.swap, below, left),
            swap_flip_x: with_cell(keys.swap_flip_x, above, left),
            swap_flip_y: with_cell(keys.swap_flip_y, below, right),
            swap_half: with_cell(keys.swap_half, above, right),
        };
    }
    keys
}

/// True where none of the first `wide` columns of a key is 0.
#[inline(always)]
fn is_plain(key: u32, wide: usize) -> bool
    requires { wide ≤ 5 }
    ensures { IsTrue result → IsPlain key wide }
{
    'columns: for column in 0..wide {
        if (key >> (5 * column)) % 32 == 0 {
            return false;
        }
    }
    true
}

/// True where none of the columns of the keys is 0. The keys of mirror images have the same columns.
fn are_plain(keys: Keys, wide: usize, high: usize) -> bool
    requires wide { wide ≤ 5 }
    requires high { high ≤ 5 }
    ensures { IsTrue result → ArePlain keys wide high }
{
    let across = is_plain(keys.same, wide) && is_plain(keys.half, wide);
    let down = is_plain(keys.swap, high) && is_plain(keys.swap_half, high);
    across && down
}

/// The least of a number and of the last three keys.
fn least_last(first: u32, keys: Keys) -> u32
    ensures { result ≡ min (min (min first keys.swap_flip_x) keys.swap_flip_y) keys.swap_half }
{
    first
        .min(keys.swap_flip_x)
        .min(keys.swap_flip_y)
        .min(keys.swap_half)
}

/// The key with the least text of all eight, and its number of columns.
fn least_key(keys: Keys, wide: usize, high: usize) -> (u32, usize)
    requires below { AreBelow keys wide high }
    requires wide { wide ≤ 5 }
    requires high { high ≤ 5 }
    ensures text { least_text (key_texts keys wide high) ≡ key_text result.1 result.0 }
    ensures narrow { result.1 ≤ 5 }
{
    let across = keys.same.min(keys.flip_x).min(keys.flip_y).min(keys.half);
    if wide < high {
        (across, wide)
    } else if wide > high {
        (least_last(keys.swap, keys), high)
    } else {
        (least_last(across.min(keys.swap), keys), high)
    }
}

/// The key whose text is the least of those of cells, turned by each of the eight maps, and its number of columns; or `None`
/// where a column of one of them is 0.
fn tiny_key(cells: &[(i32, i32)], frame: Frame) -> Option<(u32, usize)>
    requires some { 0 < length cells.now }
    requires placed { All IsPlace cells.now }
    requires frame { frame ≡ frame_of cells.now }
    requires bounded { IsBounded frame }
    requires tiny { IsTinyFrame frame }
    ensures text { IfSome result
        (λ key. least_text (turned_bodies (from_list cells.now)) ≡ key_text key.1 key.0) }
    ensures narrow { IfSome result (λ key. key.1 ≤ 5) }
{
    let keys = keys_of(cells, frame);
    let (wide, high) = (frame.width(), frame.height());
    if are_plain(keys, wide, high) {
        Some(least_key(keys, wide, high))
    } else {
        None
    }
}

/// The key whose text is the least of those of cells, turned by each of the eight maps, and its number of columns, if the frame
/// of the cells is tiny and no column of one of them is 0.
pub fn key_of(cells: &[(i32, i32)], frame: Option<Frame>) -> Option<(u32, usize)>
    requires some { IfSome frame (λ f. 0 < length cells.now) }
    requires placed { All IsPlace cells.now }
    requires frame { IfSome frame (λ f. f ≡ frame_of cells.now) }
    requires bounded { IfSome frame IsBounded }
    ensures text { IfSome result
        (λ key. least_text (turned_bodies (from_list cells.now)) ≡ key_text key.1 key.0) }
    ensures narrow { IfSome result (λ key. key.1 ≤ 5) }
{
    match frame {
        Some(frame) if frame.is_tiny() => tiny_key(cells, frame),
        _ => None,
    }
}

/// Adds the text of the first `wide` columns of a key.
pub fn push_key(text: &mut Vec<u8>, key: u32, wide: usize) -> Result<(), AllocError>
    requires { wide ≤ 5 }
    ensures { OnOk result (text.new.items ≡ text.old.items ++ key_text wide key) }
{
    'columns: for place in 0..wide {
        let value = (key >> (5 * (wide - 1 - place))) % 32;
        text.push(digit(value as u8))?;
    }
    Ok(())
}
