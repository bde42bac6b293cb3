//! Reading Wechsler texts.
ghost use Rattle.std.specs.Prelude.{◌≡◌, ◌≢◌, ◌+◌, ◌*◌, ◌<◌, ◌≤◌, ◌∷◌, ◌++◌, [], All, IfErr, IfOk, None, OnOk, Some, false, true, length, map, pos, ◌==◌, if◌then◌else◌};
ghost use Rattle.std.specs.List.{list_any};
ghost use Rattle.life_model.specs.Symmetry.{normal};
ghost use Rattle.life_cells.specs.Limits.{IsWithin};
ghost use Rattle.life_cells.specs.Readings.{cell_of_pair, Gives};
ghost use Rattle.life_cells.specs.CodeReading.{Offence, begins_near, column_cells, digit_value, is_base_36_digit, is_far, keeps_a_cell, refusal, cells_spelled};
ghost use Rattle.life_cells.specs.Drawing.{BeginsWithMark, IsWithinDigits, cells_drawn, keeps_from, marks_at, mark_of_sign};
ghost use Rattle.life_cells.specs.declared.reader.CodeFault.TheVariants.{Memory, TooFar};

use crate::cell_list::CellList;
use crate::limits::PLACE_LIMIT;
use crate::order::put_in_order;
use crate::shape::Shape;
use std::alloc::{AllocError, Global};
use thiserror::Error;

/// The reason why a text can't be read as a Wechsler text. `at` is the byte at fault, counted from 0.
#[derive(Clone, Copy, Debug, PartialEq, Eq, Drop, Error)]
pub enum CodeFault {
    /// There is no byte at all.
    #[error("code fault 1")]
    Empty,
    /// A byte is not one of `0` to `9` and `a` to `z`.
    #[error("code fault 2 at {at}")]
    BadChar { at: usize },
    /// `y` is the last byte, or comes before a byte that is not one of these. `at` is the `y`.
    #[error("code fault 3 at {at}")]
    CutRun { at: usize },
    /// A live cell's x or y is above 1,048,575. `at` is its column's byte.
    #[error("code fault 4 at {at}")]
    TooFar { at: usize },
    #[error("out of memory")]
    Memory,
}

impl From<AllocError> for CodeFault {
    ghost use Rattle.std.specs.Prelude.{◌≡◌};
    ghost use Rattle.life_cells.specs.declared.reader.CodeFault.TheVariants.{Memory};

    ghost from_gives = { λ _ e. e ≡ Memory };

    fn from(_: AllocError) -> CodeFault {
        CodeFault::Memory
    }
}

// The meaning of a byte, or of `y` and the byte after it.
#[derive(Clone, Copy, Drop)]
enum Sign {
    // a column of this value
    Value(u8),
    // this many columns of zeros
    Skip(u32),
    // the next strip
    Down,
}

// The value of a byte from `0` to `9` or `a` to `z`.
fn digit_value(byte: u8) -> Option<u8>
    ensures { result ≡ (if is_base_36_digit byte then Some (digit_value byte) else None) }
{
    match byte {
        b'0'..=b'9' => Some(byte - b'0'),
        b'a'..=b'z' => Some(byte - b'a' + 10),
        _ => None,
    }
}

// The sign at a place, and the place after it.
fn next_sign(text: &[u8], at: usize) -> Result<(Sign, usize), CodeFault>
    requires { at < length text.now }
    ensures found { IfOk result
        (λ p. marks_at text.now at ≡ mark_of_sign at p.0 ∷ marks_at text.now p.1) }
    ensures small { IfOk result (λ p. IsWithinDigits p.0) }
    ensures further { IfOk result (λ p. at < p.1) }
    ensures within { IfOk result (λ p. p.1 ≤ length text.now) }
    ensures refused { IfErr result
        (λ fault. BeginsWithMark (Offence fault) (marks_at text.now at)) }
    ensures told { IfErr result (λ fault. fault ≢ Memory) }
{
    if text[at] == b'y' {
        let Some(byte) = text.get(at + 1) else {
            return Err(CodeFault::CutRun { at });
        };
        let Some(value) = digit_value(*byte) else {
            return Err(CodeFault::CutRun { at });
        };
        return Ok((Sign::Skip(4 + u32::from(value)), at + 2));
    }
    let Some(value) = digit_value(text[at]) else {
        return Err(CodeFault::BadChar { at });
    };
    let sign = match text[at] {
        b'z' => Sign::Down,
        b'w' => Sign::Skip(2),
        b'x' => Sign::Skip(3),
        _ => Sign::Value(value),
    };
    Ok((sign, at + 1))
}

fn push_cell(cells: &mut Vec<(i32, i32)>, x: u32, y: u32) -> Result<(), AllocError>
    requires column { x < PLACE_LIMIT }
    requires row { y < PLACE_LIMIT }
    ensures cells { OnOk result (cells.new.items ≡ cells.old.items ++ (pos x, pos y) ∷ []) }
    ensures within { OnOk result
        (All (IsWithin 0) cells.old.items → All (IsWithin 0) cells.new.items) }
{
    cells.push((x as i32, y as i32))?;
    Ok(())
}

// Adds the live cells of a column.
fn push_column(
    cells: &mut Vec<(i32, i32)>,
    at: usize,
    strip: u32,
    column: u32,
    value: u8,
) -> Result<(), CodeFault>
    requires strips { strip ≤ PLACE_LIMIT }
    ensures near { OnOk result (list_any is_far (column_cells strip column value) ≡ false) }
    ensures cells { OnOk result
        (cells.new.items ≡ cells.old.items ++ map cell_of_pair (column_cells strip column value)) }
    ensures within { OnOk result
        (All (IsWithin 0) cells.old.items → All (IsWithin 0) cells.new.items) }
    ensures told { IfErr result (λ fault. fault ≢ Memory → fault ≡ TooFar at) }
    ensures far { IfErr result
        (λ fault. fault ≢ Memory → list_any is_far (column_cells strip column value) ≡ true) }
    ensures memory { IfErr result
        (λ fault. fault ≡ Memory → begins_near (column_cells strip column value) ≡ true) }
{
    'rows: for row in 0..5 {
        if (value >> row) % 2 == 1 {
            let y = 5 * strip + row;
            if column >= PLACE_LIMIT || y >= PLACE_LIMIT {
                return Err(CodeFault::TooFar { at });
            }
            push_cell(cells, column, y)?;
        }
    }
    Ok(())
}

// The cells that the text spells, in its order.
fn read_cells(alloc: Global, text: &[u8]) -> Result<Vec<(i32, i32)>, CodeFault>
    ensures drawn { Gives Memory (λ cells. cells.items) result
        (cells_drawn 0 0 (marks_at text.now 0)) }
    ensures within { IfOk result (λ cells. All (IsWithin 0) cells.items) }
    ensures kept { IfOk result
        (λ cells. 0 < length cells.items → keeps_from 0 0 (marks_at text.now 0) ≡ true) }
    ensures memory { IfErr result
        (λ fault. fault ≡ Memory → keeps_from 0 0 (marks_at text.now 0) ≡ true) }
{
    let mut cells = Vec::new(alloc);
    let mut strip = 0;
    let mut column = 0;
    let mut at = 0;
    'signs: while at < text.len() {
        let (sign, next) = next_sign(text, at)?;
        match sign {
            Sign::Value(value) => {
                push_column(&mut cells, at, strip, column, value)?;
                column = (column + 1).min(PLACE_LIMIT);
            }
            Sign::Skip(count) => column = (column + count).min(PLACE_LIMIT),
            Sign::Down => {
                strip = (strip + 1).min(PLACE_LIMIT);
                column = 0;
            }
        }
        at = next;
    }
    Ok(cells)
}

/// The shape that a Wechsler text spells, in any spelling: zeros may be anywhere. This runs out of memory only if a
/// live cell is kept before the first fault.
pub fn read_wechsler(alloc: Global, text: &[u8]) -> Result<Shape, CodeFault>
    ensures shape { IfOk result (λ shape. shape ≡ normal (cells_spelled text.now)) }
    ensures lawful { OnOk result (refusal text.now ≡ None) }
    ensures refused { IfErr result (λ fault. fault ≢ Memory → refusal text.now ≡ Some fault) }
    ensures memory { IfErr result (λ fault. fault ≡ Memory → keeps_a_cell text.now ≡ true) }
{
    if text.is_empty() {
        return Err(CodeFault::Empty);
    }
    let mut cells = read_cells(alloc, text)?;
    put_in_order(&mut cells);
    let (shape, _) = Shape::of(alloc, &CellList::from_ordered(cells))?;
    Ok(shape)
}
