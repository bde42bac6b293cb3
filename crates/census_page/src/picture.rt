//! Pictures of codes, and their RLE texts.
use crate::html::Html;
use crate::own::{
    BY, CELLS, NO_CELLS, RLE, RLE_END, SPACE, SVG, SVG_BOX, SVG_END, SVG_GRID, SVG_HEIGHT,
    SVG_PATH, SVG_TITLE, TOO_LARGE, TOO_LARGE_END,
};
use crate::stroke::push_strokes;
use life_cells::{CodeFault, Rule, Shape, body_of, read_wechsler};
use life_text::write_rle;
use std::alloc::{AllocError, Global};

// The largest width and height, in cells, of a shape that has a picture.
const SIDE_LIMIT: u32 = 200;

/// The shape that the body of a code describes, if it is a Wechsler text. The only error is out of memory.
pub fn spelled(alloc: Global, code: &[u8]) -> Result<Option<Shape>, AllocError> {
    match read_wechsler(alloc, body_of(code)) {
        Ok(shape) => Ok(Some(shape)),
        Err(CodeFault::Memory) => Err(AllocError),
        Err(_) => Ok(None),
    }
}

// The width or height of this many cells, in pixels, if the longer side has `side` cells.
fn pixels(cells: u32, side: u32) -> u64 {
    let cells = u64::from(cells);
    if side <= 16 {
        cells * 8
    } else if side <= 40 {
        cells * 4
    } else if side <= 80 {
        cells * 2
    } else {
        cells
    }
}

// Adds the size of a picture, in words.
fn push_box(html: &mut Html, width: u32, height: u32) -> Result<(), AllocError> {
    html.grouped(u64::from(width))?;
    html.own(BY)?;
    html.grouped(u64::from(height))?;
    html.own(CELLS)
}

// Adds the beginning of a picture: its size in pixels and in cells. There are lines between cells only if these are large
// enough.
fn push_canvas(html: &mut Html, width: u32, height: u32) -> Result<(), AllocError> {
    let side = width.max(height);
    html.own(SVG)?;
    html.number(pixels(width, side))?;
    html.own(SVG_HEIGHT)?;
    html.number(pixels(height, side))?;
    html.own(SVG_BOX)?;
    html.number(u64::from(width))?;
    html.own(SPACE)?;
    html.number(u64::from(height))?;
    if side <= 40 {
        html.own(SVG_GRID)?;
    } else {
        html.own(SVG_TITLE)?;
    }
    push_box(html, width, height)?;
    html.own(SVG_PATH)
}

// True where a shape has cells, and is at most `SIDE_LIMIT` cells wide and high.
fn has_picture(shape: &Shape) -> bool {
    shape.width() != 0 && (shape.width() <= SIDE_LIMIT && shape.height() <= SIDE_LIMIT)
}

// Adds the words for a shape without a picture.
fn push_size(html: &mut Html, width: u32, height: u32) -> Result<(), AllocError> {
    if width == 0 {
        return html.own(NO_CELLS);
    }
    html.own(TOO_LARGE)?;
    push_box(html, width, height)?;
    html.own(TOO_LARGE_END)
}

/// Appends a picture of a shape, in SVG, with a stroke for each run of cells side by side: that of the cell (x, y) begins at
/// (x, y), and y grows downwards. A shape that is wider or higher than `SIDE_LIMIT` is described in words instead, and nothing
/// is appended if there is no shape. The only error is out of memory.
pub fn push_picture(html: &mut Html, shape: &Option<Shape>) -> Result<(), AllocError> {
    let Some(shape) = shape else {
        return Ok(());
    };
    if !has_picture(shape) {
        return push_size(html, shape.width(), shape.height());
    }
    push_canvas(html, shape.width(), shape.height())?;
    push_strokes(html, shape.list().as_slice())?;
    html.own(SVG_END)
}

/// Appends the number of cells of a shape, if there is one. The only error is out of memory.
pub fn push_cell_count(html: &mut Html, shape: &Option<Shape>) -> Result<(), AllocError> {
    match shape {
        Some(shape) => html.grouped(shape.list().as_slice().len() as u64),
        None => Ok(()),
    }
}

// Adds the RLE text of a shape under a rule, to be shown on request.
fn push_written(
    alloc: Global,
    html: &mut Html,
    rule: &Rule,
    shape: &Shape,
) -> Result<(), AllocError> {
    let mut text = Vec::new(alloc);
    write_rle(rule, shape.list(), &mut text)?;
    html.own(RLE)?;
    html.value(text.as_slice())?;
    html.own(RLE_END)
}

/// Appends the RLE text of a shape that has a picture, under a rule. Nothing is appended if there is no such shape or
/// no such rule. The only error is out of memory.
pub fn push_rle(
    alloc: Global,
    html: &mut Html,
    rule: &[u8],
    shape: &Option<Shape>,
) -> Result<(), AllocError> {
    match (Rule::parse(rule), shape) {
        (Ok(rule), Some(shape)) if has_picture(shape) => push_written(alloc, html, &rule, shape),
        _ => Ok(()),
    }
}
