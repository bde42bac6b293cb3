//! Tokens without a fault, drawn as they are found.
ghost use Rattle.std.specs.Prelude.{◌<◌, ◌≡◌, ◌≤◌, IfOk, MatchOption, false, length, slice_index};
ghost use Rattle.life_cells.specs.Readings.{with_prefix};
ghost use Rattle.life_text.specs.Drawing.{drawn_from};
ghost use Rattle.life_text.specs.Found.{Draws, Stops};
ghost use Rattle.life_text.specs.Reader.{count_cap};
ghost use Rattle.life_text.specs.Rle.{cell_limit};

use crate::bytes::{is_digit, is_space};
use crate::pen::{Pen, is_past_cells, is_past_places, push_span};
use crate::token::{CAP, Found, counted_token, is_cells, is_live, is_row_end, tag_alone};
use std::alloc::AllocError;

/// Draws a token and returns the pen after it. If the token has a fault or is the end, nothing is drawn and the result
/// is `None`.
#[inline(always)]
pub fn draw_found(
    cells: &mut Vec<(i32, i32)>,
    pen: Pen,
    found: &Found,
) -> Result<Option<Pen>, AllocError>
    requires once { found.now.counted ≡ false → found.now.times ≡ 1 }
    requires few { found.now.times ≤ count_cap }
    requires row { pen.y ≤ count_cap }
    requires column { pen.x ≤ count_cap }
    requires live { pen.live ≤ cell_limit }
    ensures { IfOk result
        (λ answer. MatchOption answer (Stops pen found.now cells.old.items cells.new.items)
        (λ next. Draws pen found.now next cells.old.items cells.new.items)) }
{
    if found.times == 0 {
        return Ok(None);
    }
    if is_live(found) {
        if is_past_places(pen, found.times) || is_past_cells(pen, found.times) {
            return Ok(None);
        }
        push_span(cells, pen.x, pen.y, found)?;
        return Ok(Some(Pen {
            y: pen.y,
            x: pen.x + found.times,
            live: pen.live + found.times,
        }));
    }
    if is_cells(found) {
        return Ok(Some(Pen {
            y: pen.y,
            x: (pen.x + found.times).min(CAP),
            live: pen.live,
        }));
    }
    if is_row_end(found) {
        return Ok(Some(Pen {
            y: (pen.y + found.times).min(CAP),
            x: 0,
            live: pen.live,
        }));
    }
    Ok(None)
}

// Passes over the tags `b` from a place on where there is one, and returns the pen and the place after them.
#[inline(always)]
fn pass_dead(text: &[u8], from: usize, start: Pen) -> (Pen, usize)
    requires within { from < length text.now }
    requires dead { slice_index text.now from ≡ 98 }
    requires row { start.y ≤ count_cap }
    requires column { start.x ≤ count_cap }
    ensures from { from < result.1 }
    ensures within { result.1 ≤ length text.now }
    ensures row { result.0.y ≡ start.y }
    ensures column { result.0.x ≤ count_cap }
    ensures live { result.0.live ≡ start.live }
    ensures drawn { drawn_from text.now start from ≡ drawn_from text.now result.0 result.1 }
{
    let mut at = from + 1;
    while at < text.len() && text[at] == b'b' {
        at += 1;
    }
    let behind = Pen {
        y: start.y,
        x: (start.x as usize + (at - from)).min(CAP as usize) as u32,
        live: start.live,
    };
    (behind, at)
}

/// Draws tokens from a place on, and returns the pen and the place after them. It stops at the latest before the first
/// token that has a fault, that is the end, or that has a comment before it.
#[inline(never)]
pub fn draw_tokens(
    cells: &mut Vec<(i32, i32)>,
    text: &[u8],
    from: usize,
    start: Pen,
) -> Result<(Pen, usize), AllocError>
    requires within { from ≤ length text.now }
    requires row { start.y ≤ count_cap }
    requires column { start.x ≤ count_cap }
    requires live { start.live ≤ cell_limit }
    ensures from { IfOk result (λ behind. from ≤ behind.1) }
    ensures within { IfOk result (λ behind. behind.1 ≤ length text.now) }
    ensures row { IfOk result (λ behind. behind.0.y ≤ count_cap) }
    ensures column { IfOk result (λ behind. behind.0.x ≤ count_cap) }
    ensures live { IfOk result (λ behind. behind.0.live ≤ cell_limit) }
    ensures drawn { IfOk result
        (λ behind. with_prefix cells.old.items (drawn_from text.now start from) ≡
        with_prefix cells.new.items (drawn_from text.now behind.0 behind.1)) }
{
    let mut pen = start;
    let mut at = from;
    while at < text.len() {
        let byte = text[at];
        if byte == b'b' {
            (pen, at) = pass_dead(text, at, pen);
        } else if let Some(next) = draw_found(cells, pen, &tag_alone(at, byte))? {
            pen = next;
            at += 1;
        } else if is_space(byte) {
            at += 1;
        } else if is_digit(byte) {
            let found = counted_token(text, at);
            let Some(next) = draw_found(cells, pen, &found)? else {
                return Ok((pen, at));
            };
            pen = next;
            at = found.tag_at + 1;
        } else {
            return Ok((pen, at));
        }
    }
    Ok((pen, at))
}
