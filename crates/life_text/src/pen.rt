//! The pen that draws tokens.
ghost use Rattle.std.specs.Prelude.{◌++◌, ◌+◌, ◌<◌, ◌≡◌, ◌≤◌, ◌||◌, OnOk, false, map, nat_lt, pos, true};
ghost use Rattle.life_cells.specs.Limits.{place_limit};
ghost use Rattle.life_cells.specs.Readings.{cell_of_pair};
ghost use Rattle.life_text.specs.Found.{token_found};
ghost use Rattle.life_text.specs.Reader.{count_cap};
ghost use Rattle.life_text.specs.Rle.{cell_limit, is_live, is_too_far, is_too_many, run_cells};

use crate::token::{Found, is_live};
use life_cells::PLACE_LIMIT;
use std::alloc::AllocError;

/// The row and the column of the next token, both capped, and the number of live cells.
#[derive(Clone, Copy)]
pub struct Pen {
    pub y: u32,
    pub x: u32,
    pub live: u32,
}

// The greatest number of live cells.
const CELL_LIMIT: u32 = 1_048_576;

/// True where the last of `times` live cells is beyond the limit of places.
#[inline(always)]
pub fn is_past_places(pen: Pen, times: u32) -> bool
    requires few { times ≤ count_cap }
    requires row { pen.y ≤ count_cap }
    requires column { pen.x ≤ count_cap }
    ensures { result ≡ (nat_lt place_limit (pen.y + 1) || nat_lt place_limit (pen.x + times)) }
{
    pen.y + 1 > PLACE_LIMIT || pen.x + times > PLACE_LIMIT
}

/// True where `times` more live cells exceed the limit of cells.
#[inline(always)]
pub fn is_past_cells(pen: Pen, times: u32) -> bool
    requires few { times ≤ count_cap }
    requires live { pen.live ≤ cell_limit }
    ensures { result ≡ nat_lt cell_limit (pen.live + times) }
{
    pen.live + times > CELL_LIMIT
}

/// True where a token draws a live cell beyond the limit of places.
pub fn is_too_far(found: &Found, pen: Pen) -> bool
    requires once { found.now.counted ≡ false → found.now.times ≡ 1 }
    requires few { found.now.times ≤ count_cap }
    requires row { pen.y ≤ count_cap }
    requires column { pen.x ≤ count_cap }
    ensures { result ≡ is_too_far pen.y pen.x (token_found found.now) }
{
    is_live(found) && is_past_places(pen, found.times)
}

/// True where a token draws more live cells than the limit allows, counting those before it.
pub fn is_too_many(found: &Found, pen: Pen) -> bool
    requires once { found.now.counted ≡ false → found.now.times ≡ 1 }
    requires few { found.now.times ≤ count_cap }
    requires live { pen.live ≤ cell_limit }
    ensures { result ≡ is_too_many pen.live (token_found found.now) }
{
    is_live(found) && is_past_cells(pen, found.times)
}

fn cell(x: u32, y: u32) -> (i32, i32)
    requires x { x < place_limit }
    requires y { y < place_limit }
    ensures { result ≡ (pos x, pos y) }
{
    (x as i32, y as i32)
}

/// Draws the live cells of a token, which has some, at this column and row.
pub fn push_span(
    cells: &mut Vec<(i32, i32)>,
    x: u32,
    y: u32,
    found: &Found,
) -> Result<(), AllocError>
    requires once { found.now.counted ≡ false → found.now.times ≡ 1 }
    requires live { is_live (token_found found.now) ≡ true }
    requires row { y < place_limit }
    requires column { x + found.now.times ≤ place_limit }
    ensures { OnOk result
        (cells.new.items ≡
        cells.old.items ++ map cell_of_pair (run_cells y x (token_found found.now))) }
{
    for step in 0..found.times {
        cells.push(cell(x + step, y))?;
    }
    Ok(())
}
