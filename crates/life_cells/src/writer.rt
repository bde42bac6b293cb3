//! Writing Wechsler texts.
ghost use Rattle.std.specs.Prelude.{◌≡◌, ◌+◌, ◌-◌, ◌*◌, ◌<◌, ◌≤◌, ◌∷◌, ◌++◌, ℕ, [], All, IfOk, OnOk, T, drop, length, map, pos, slice_index_or, take, ◌≤ℤ◌, ◌<ℤ◌, ◌↔◌, IsTrue};
ghost use Rattle.std.specs.List.Sorted.{IsNonDecreasingBy};
ghost use Rattle.life_model.specs.Generation.{is_rising};
ghost use Rattle.life_cells.specs.Limits.{extent_limit};
ghost use Rattle.life_cells.specs.Dots.{IsInField, IsInStrip, IsLeftOf, dot, dots_value, strip_limit, strip_mark, values_text, weights};
ghost use Rattle.life_cells.specs.Wechsler.{digit, short_zeros, strips_text, zeros};

use std::alloc::{AllocError, Global};

// The digit of a number: `0` to `9`, then `a` to `z`.
fn digit(n: u8) -> u8
    requires { n < 36 }
    ensures { result ≡ digit n }
{
    if n < 10 { b'0' + n } else { b'a' + (n - 10) }
}

// Adds a run of `count` zeros.
fn push_zeros(text: &mut Vec<u8>, count: u32) -> Result<(), AllocError>
    ensures { OnOk result (text.new.items ≡ text.old.items ++ zeros count) }
{
    let mut left = count;
    'runs: while left >= 39 {
        text.push(b'y')?;
        text.push(b'z')?;
        left -= 39;
    }
    push_short(text, left)
}

// Adds a run of fewer than 39 zeros.
fn push_short(text: &mut Vec<u8>, count: u32) -> Result<(), AllocError>
    requires { count < 39 }
    ensures { OnOk result (text.new.items ≡ text.old.items ++ short_zeros count) }
{
    match count {
        0 => {}
        1 => text.push(b'0')?,
        2 => text.push(b'w')?,
        3 => text.push(b'x')?,
        _ => {
            text.push(b'y')?;
            text.push(digit(count as u8 - 4))?;
        }
    }
    Ok(())
}

// The value of the column of the first dot, and the number of its dots. The dots are sorted by column.
fn first_column(dots: &[(u32, u8)]) -> (u8, usize)
    requires some { 0 < length dots.now }
    requires sorted { IsNonDecreasingBy (λ d. d.0) dots.now }
    requires small { (x : ℕ) → dots_value dots.now x < 36 }
    ensures value { result.0 ≡ dots_value dots.now (slice_index_or dots.now 0 (0, 0)).0 }
    ensures further { 0 < result.1 }
    ensures within { result.1 ≤ length dots.now }
    ensures behind { All (λ d. (slice_index_or dots.now 0 (0, 0)).0 < d.0)
        (drop result.1 dots.now) }
    ensures others { (x : ℕ) → (slice_index_or dots.now 0 (0, 0)).0 < x →
        dots_value (drop result.1 dots.now) x ≡ dots_value dots.now x }
{
    let column = dots[0].0;
    let mut value = 0;
    'dots: for (i, dot) in dots.iter().enumerate() {
        if dot.0 != column {
            return (value, i);
        }
        value += dot.1;
    }
    (value, dots.len())
}

// Adds the text of a strip with these dots, which are sorted by column.
fn push_columns(text: &mut Vec<u8>, dots: &[(u32, u8)]) -> Result<(), AllocError>
    requires sorted { IsNonDecreasingBy (λ d. d.0) dots.now }
    requires live { All (λ d. 0 < d.1) dots.now }
    requires small { (x : ℕ) → dots_value dots.now x < 36 }
    requires placed { All (λ d. d.0 < extent_limit) dots.now }
    ensures { OnOk result
        ((wide : ℕ) → All (λ d. d.0 < wide) dots.now →
        text.new.items ≡ text.old.items ++ values_text (dots_value dots.now) wide) }
{
    let mut written = 0;
    let mut rest = dots;
    'columns: while !rest.is_empty() {
        let column = rest[0].0;
        let (value, count) = first_column(rest);
        push_zeros(text, column - written)?;
        text.push(digit(value))?;
        written = column + 1;
        let (_, behind) = rest.split_at(count);
        rest = behind;
    }
    Ok(())
}

// The dots of cells of a strip.
fn dots_of(alloc: Global, cells: &[(i32, i32)], strip: u32) -> Result<Vec<(u32, u8)>, AllocError>
    requires strips { strip ≤ strip_limit }
    requires placed { All (IsInStrip strip) cells.now }
    ensures { IfOk result (λ dots. dots.items ≡ map (dot strip) cells.now) }
{
    let mut dots = Vec::with_capacity(alloc, cells.len())?;
    for cell in cells {
        dots.push(dot_of(*cell, strip))?;
    }
    Ok(dots)
}

// The dot of a cell of a strip.
fn dot_of(cell: (i32, i32), strip: u32) -> (u32, u8)
    requires strips { strip ≤ strip_limit }
    requires placed { IsInStrip strip cell }
    ensures { result ≡ dot strip cell }
{
    (cell.0 as u32, 1 << (cell.1 as u32 - 5 * strip))
}

// Adds the text of a strip with these cells.
fn push_strip(
    alloc: Global,
    text: &mut Vec<u8>,
    cells: &[(i32, i32)],
    strip: u32,
) -> Result<(), AllocError>
    requires strips { strip ≤ strip_limit }
    requires placed { All (IsInStrip strip) cells.now }
    requires small { (x : ℕ) → weights strip cells.now x < 36 }
    ensures { OnOk result
        ((wide : ℕ) → All (IsLeftOf wide) cells.now →
        text.new.items ≡ text.old.items ++ values_text (weights strip cells.now) wide) }
{
    let mut dots = dots_of(alloc, cells, strip)?;
    dots.sort_unstable_by_key(|dot| dot.0);
    push_columns(text, &dots)?;
    Ok(())
}

// True where a cell is below a strip.
fn is_below(cell: (i32, i32), strip: u32) -> bool
    requires { strip ≤ strip_limit }
    ensures { IsTrue result ↔ (pos (5 * strip + 5) ≤ℤ cell.1) }
{
    cell.1 >= 5 * strip as i32 + 5
}

// The number of cells at the start that are not below a strip.
fn count_within(cells: &[(i32, i32)], strip: u32) -> usize
    requires rising { T (is_rising cells.now) }
    requires strips { strip ≤ strip_limit }
    ensures within { result ≤ length cells.now }
    ensures above { All (λ c. c.1 <ℤ pos (5 * strip + 5)) (take result cells.now) }
    ensures below { All (λ c. pos (5 * strip + 5) ≤ℤ c.1) (drop result cells.now) }
{
    'cells: for (i, cell) in cells.iter().enumerate() {
        if is_below(*cell, strip) {
            return i;
        }
    }
    cells.len()
}

// Adds the `z` that comes before a strip, but for the first.
fn begin_strip(text: &mut Vec<u8>, strip: u32) -> Result<(), AllocError>
    ensures { OnOk result (text.new.items ≡ text.old.items ++ strip_mark strip) }
{
    if strip > 0 {
        text.push(b'z')?;
    }
    Ok(())
}

// The text of the cells of a normal form with `strips` strips.
pub fn text_of(alloc: Global, cells: &[(i32, i32)], strips: u32) -> Result<Vec<u8>, AllocError>
    requires rising { T (is_rising cells.now) }
    requires placed { All IsInField cells.now }
    requires strips { strips ≤ strip_limit }
    ensures { IfOk result
        (λ text. (wide : ℕ) → All (IsLeftOf wide) cells.now →
        text.items ≡ strips_text (λ k. values_text (weights k cells.now) wide) strips) }
{
    let mut text = Vec::new(alloc);
    if strips == 0 {
        text.push(b'0')?;
        return Ok(text);
    }
    let mut rest = cells;
    'strips: for strip in 0..strips {
        begin_strip(&mut text, strip)?;
        let (part, behind) = rest.split_at(count_within(rest, strip));
        push_strip(alloc, &mut text, part, strip)?;
        rest = behind;
    }
    Ok(text)
}
