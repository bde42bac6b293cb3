//! Writing the texts of grids.
ghost use Rattle.std.specs.Prelude.{◌≡◌, ◌*◌, ◌<◌, ◌++◌, ◌+◌, ◌≤◌, All, OnOk, [], length, slice_index};
ghost use Rattle.life_cells.specs.Dots.{strip_mark};
ghost use Rattle.life_cells.specs.Wechsler.{columns_text, digit, short_zeros, zeros};
ghost use Rattle.life_codes.specs.Lengths.Grids.{columns_from, grid_text, strip_of};

use std::alloc::AllocError;

/// The digit of a number: `0` to `9`, then `a` to `z`.
pub fn digit(n: u8) -> u8
    requires { n < 36 }
    ensures { result ≡ digit n }
{
    if n < 10 { b'0' + n } else { b'a' + (n - 10) }
}

/// Adds a run of fewer than 39 zeros.
fn push_short(text: &mut Vec<u8>, count: usize) -> Result<(), AllocError>
    requires { count < 39 }
    ensures { OnOk result (text.new.items ≡ text.old.items ++ short_zeros count) }
{
    match count {
        0 => {}
        1 => text.push(b'0')?,
        2 => text.push(b'w')?,
        3 => text.push(b'x')?,
        _ => {
            text.push(b'y')?;
            text.push(digit(count as u8 - 4))?;
        }
    }
    Ok(())
}

/// Adds a run of `count` zeros, of any length.
fn push_run(text: &mut Vec<u8>, count: usize) -> Result<(), AllocError>
    ensures { OnOk result (text.new.items ≡ text.old.items ++ zeros count) }
{
    let mut left = count;
    'runs: while left >= 39 {
        text.push(b'y')?;
        text.push(b'z')?;
        left -= 39;
    }
    push_short(text, left)
}

/// Adds a run of `count` zeros. Most columns have none before them.
#[inline(always)]
fn push_zeros(text: &mut Vec<u8>, count: usize) -> Result<(), AllocError>
    ensures { OnOk result (text.new.items ≡ text.old.items ++ zeros count) }
{
    if count > 0 {
        push_run(text, count)?;
    }
    Ok(())
}

/// The value at a place of a strip, which is read from either end.
pub fn value_at(strip: &[u8], place: usize, back: bool) -> u8
    requires { place < length strip.now }
    ensures { result ≡ slice_index (columns_from back strip.now) place }
{
    if back {
        strip[strip.len() - 1 - place]
    } else {
        strip[place]
    }
}

/// Adds the text of a strip.
#[inline(always)]
fn push_strip(text: &mut Vec<u8>, strip: &[u8], back: bool) -> Result<(), AllocError>
    requires { All (λ v. v < 36) strip.now }
    ensures { OnOk result
        (text.new.items ≡ text.old.items ++ columns_text 0 (columns_from back strip.now)) }
{
    let mut skipped = 0;
    'columns: for place in 0..strip.len() {
        let value = value_at(strip, place, back);
        if value == 0 {
            skipped += 1;
        } else {
            push_zeros(text, skipped)?;
            text.push(digit(value))?;
            skipped = 0;
        }
    }
    Ok(())
}

/// A strip of a grid.
pub fn strip_of(values: &[u8], wide: usize, strip: usize) -> &[u8]
    requires { strip * wide + wide ≤ length values.now }
    ensures { result.now ≡ strip_of values.now wide strip }
{
    &values[strip * wide..strip * wide + wide]
}

/// Adds the mark before a strip.
fn begin_strip(text: &mut Vec<u8>, strip: usize) -> Result<(), AllocError>
    ensures { OnOk result (text.new.items ≡ text.old.items ++ strip_mark strip) }
{
    if strip > 0 {
        text.push(b'z')?;
    }
    Ok(())
}

/// Adds the text of the first strip of a grid.
pub fn begin_text(
    text: &mut Vec<u8>,
    values: &[u8],
    wide: usize,
    back: bool,
) -> Result<(), AllocError>
    requires room { wide ≤ length values.now }
    requires small { All (λ v. v < 36) values.now }
    requires empty { text.old.items ≡ [] }
    ensures { OnOk result
        (text.new.items ≡ columns_text 0 (columns_from back (strip_of values.now wide 0))) }
{
    push_strip(text, strip_of(values, wide, 0), back)
}

/// Adds the strips of a grid after the first.
pub fn end_text(
    text: &mut Vec<u8>,
    values: &[u8],
    wide: usize,
    strips: usize,
    back: bool,
) -> Result<(), AllocError>
    requires some { 0 < strips }
    requires room { length values.now ≡ strips * wide }
    requires small { All (λ v. v < 36) values.now }
    requires begun { text.old.items ≡
        columns_text 0 (columns_from back (strip_of values.now wide 0)) }
    ensures { OnOk result (text.new.items ≡ grid_text values.now wide strips back) }
{
    'strips: for strip in 1..strips {
        begin_strip(text, strip)?;
        push_strip(text, strip_of(values, wide, strip), back)?;
    }
    Ok(())
}
