//! Writing RLE texts.
ghost use Rattle.std.specs.Prelude.{◌≡◌, ℕ, ℤ, ◌+◌, ◌^◌, ◌%◌, Ok, ◌≤◌, ◌<◌, ◌≤ℤ◌, All, IfOk, OnErr, OnOk, List, [], ◌∷◌, ◌++◌, T, codes, decimal, length, map};
ghost use Rattle.life_model.specs.Box.{height, width};
ghost use Rattle.life_model.specs.Cell.{opposite, plus};
ghost use Rattle.life_model.specs.Generation.{Generation, cells, from_list, is_rising, size};
ghost use Rattle.life_model.specs.Rule as model;
ghost use Rattle.life_model.specs.Symmetry.{corner_of, normal};
ghost use Rattle.life_cells.specs.Limits.{IsPlace, IsWithin};
ghost use Rattle.life_text.specs.Filled.{filled_lines};
ghost use Rattle.life_text.specs.Picture.{picture_of};
ghost use Rattle.life_text.specs.Places.{place};
ghost use Rattle.life_text.specs.Rle.{cell_limit, reading};
ghost use Rattle.life_text.specs.RleText.{header, rle_text, token_text};
ghost use Rattle.life_text.specs.Writer.{places_from, tokens_from, rest_of_text};

use crate::lines::put_token;
use itoa::Buffer;
use life_cells::{CellList, Rule, corner};
use std::alloc::AllocError;

// The state of the writer: the number of characters on its line, the row and the column after the last cell, and the
// number of live cells just before that place that have no token yet.
#[derive(Clone, Copy)]
struct Nib {
    used: usize,
    y: u32,
    x: u32,
    run: u32,
}

// The column and the row of a cell, counted from the corner.
fn place(cell: (i32, i32), corner: (i32, i32)) -> (u32, u32)
    requires cell { IsPlace cell }
    requires corner { IsPlace corner }
    requires left { corner.0 ≤ℤ cell.0 }
    requires above { corner.1 ≤ℤ cell.1 }
    ensures place { result ≡ place (plus cell (opposite corner)) }
    ensures column { result.0 < 2 ^ 25 }
    ensures row { result.1 < 2 ^ 25 }
{
    ((cell.0 - corner.0) as u32, (cell.1 - corner.1) as u32)
}

// The width and the height of the bounding box of the cells.
fn size(cells: &[(i32, i32)], corner: (i32, i32)) -> (u32, u32)
    requires placed { All IsPlace cells.now }
    requires rising { T (is_rising cells.now) }
    requires corner { corner ≡ corner_of cells.now }
    ensures { result ≡ (width (from_list cells.now), height (from_list cells.now)) }
{
    let mut width = 0;
    let mut height = 0;
    for cell in cells {
        let (x, y) = place(*cell, corner);
        width = width.max(x + 1);
        height = height.max(y + 1);
    }
    (width, height)
}

fn push_number(text: &mut Vec<u8>, number: u32) -> Result<(), AllocError>
    ensures { OnOk result (text.new.items ≡ text.old.items ++ decimal number) }
{
    let mut buffer = Buffer::new();
    text.extend_from_slice(buffer.format(number).as_bytes())
}

fn push_header(text: &mut Vec<u8>, rule: &Rule, width: u32, height: u32) -> Result<(), AllocError>
    ensures { OnOk result (text.new.items ≡ text.old.items ++ header rule.now width height) }
{
    text.extend_from_slice(b"x = ")?;
    push_number(text, width)?;
    text.extend_from_slice(b", y = ")?;
    push_number(text, height)?;
    text.extend_from_slice(b", rule = ")?;
    rule.text_into(text)?;
    text.push(b'\n')?;
    Ok(())
}

// Takes one more cell. If it doesn't directly follow the last one, the last run and the gap are written.
fn put_cell(text: &mut Vec<u8>, nib: Nib, cell: (u32, u32)) -> Result<Nib, AllocError>
    requires used { nib.used ≤ 70 }
    requires run { nib.run ≤ nib.x }
    requires row { nib.y ≤ cell.1 }
    requires column { cell.1 ≡ nib.y → nib.x ≤ cell.0 }
    requires small { cell.0 < 2 ^ 25 }
    ensures written { IfOk result (λ next. (cells : List (ℕ × ℕ)) →
        text.old.items ++ rest_of_text nib (cell ∷ cells) ≡
        text.new.items ++ rest_of_text next cells) }
    ensures used { IfOk result (λ next. next.used ≤ 70) }
    ensures row { IfOk result (λ next. next.y ≡ cell.1) }
    ensures column { IfOk result (λ next. next.x ≡ cell.0 + 1) }
    ensures run { IfOk result (λ next. next.run ≤ next.x) }
{
    let (x, y) = cell;
    if y == nib.y && x == nib.x {
        return Ok(Nib {
            used: nib.used,
            y,
            x: x + 1,
            run: nib.run + 1,
        });
    }
    let start = if y == nib.y { nib.x } else { 0 };
    let behind_run = put_token(text, nib.used, nib.run, b'o')?;
    let behind_row = put_token(text, behind_run, y - nib.y, b'$')?;
    let used = put_token(text, behind_row, x - start, b'b')?;
    Ok(Nib {
        used,
        y,
        x: x + 1,
        run: 1,
    })
}

// Writes the run that is left after the last cell, and the end.
fn put_end(text: &mut Vec<u8>, nib: Nib) -> Result<(), AllocError>
    requires { nib.used ≤ 70 }
    ensures { OnOk result (text.new.items ≡ text.old.items ++ rest_of_text nib []) }
{
    let behind_run = put_token(text, nib.used, nib.run, b'o')?;
    put_token(text, behind_run, 1, b'!')?;
    text.push(b'\n')?;
    Ok(())
}

// Appends the lines of the body.
fn push_body(text: &mut Vec<u8>, cells: &[(i32, i32)], corner: (i32, i32)) -> Result<(), AllocError>
    requires placed { All IsPlace cells.now }
    requires rising { T (is_rising cells.now) }
    requires corner { corner ≡ corner_of cells.now }
    ensures { OnOk result
        (text.new.items ≡
        text.old.items ++
        filled_lines 0 (map token_text (tokens_from 0 0 (places_from corner cells.now)))) }
{
    let mut nib = Nib {
        used: 0,
        y: 0,
        x: 0,
        run: 0,
    };
    for cell in cells {
        nib = put_cell(text, nib, place(*cell, corner))?;
    }
    put_end(text, nib)
}

/// Appends the RLE text of a rule and of the cells, moved so that the least x and the least y are 0. If memory runs out,
/// the text `out` is unchanged.
///
/// The header line has the width and the height of the bounding box, both 0 if there is no cell, and the printed rule.
/// The body has the longest runs of equal cells, with no dead cells at the end of a row, in lines of at most 70
/// characters, in which no token is broken. Every line ends with LF. This is the form of Golly's help on RLE and of
/// LifeWiki's article on it.
pub fn write_rle(rule: &Rule, cells: &CellList, out: &mut Vec<u8>) -> Result<(), AllocError>
    ensures written { OnOk result (out.new.items ≡ out.old.items ++ rle_text rule.now cells.now) }
    ensures refused { OnErr result (out.new.items ≡ out.old.items) }
{
    let cells = cells.as_slice();
    let corner = corner(cells);
    let (width, height) = size(cells, corner);
    let mut text = Vec::new(*out.allocator());
    push_header(&mut text, rule, width, height)?;
    push_body(&mut text, cells, corner)?;
    out.extend_from_slice(text.as_slice())?;
    Ok(())
}

/// A written text is read as its rule and the normal form of its cells, if that has no coordinate above 1,048,575 and at
/// most 1,048,576 cells.
pub fn written_texts_are_read()
    ensures { (rule : model.Rule) (G : Generation) → rule.birth < 512 → rule.survival < 512 →
        rule.birth % 2 ≡ 0
        → All (IsWithin 0) (cells (normal G)) → size (normal G) ≤ cell_limit
        → picture_of (reading (rle_text rule G)) ≡ Ok (record { rule = rule; cells = normal G }) }
{}
