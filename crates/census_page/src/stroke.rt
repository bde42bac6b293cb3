//! Cells of pictures, drawn as strokes along rows.
use crate::html::Html;
use crate::own::{MOVE, SPACE, STROKE};
use std::alloc::AllocError;

// Cells side by side in a row.
#[derive(Clone, Copy)]
struct Run {
    first: (i32, i32),
    last: (i32, i32),
    count: u64,
}

// True where a cell is the next one after another in its row.
fn follows(last: (i32, i32), cell: (i32, i32)) -> bool {
    match last.0.checked_add(1) {
        Some(next) => cell.0 == next && cell.1 == last.1,
        None => false,
    }
}

// Adds the stroke of a run.
fn push_stroke(html: &mut Html, run: &Run) -> Result<(), AllocError> {
    html.own(MOVE)?;
    html.signed(i64::from(run.first.0))?;
    html.own(SPACE)?;
    html.signed(i64::from(run.first.1))?;
    html.own(STROKE)?;
    html.number(run.count)
}

// The run extended by the next cell, or that cell as a new run, once the stroke of the old run has been added.
fn next_run(html: &mut Html, run: Run, cell: (i32, i32)) -> Result<Run, AllocError> {
    if follows(run.last, cell) {
        return Ok(Run {
            first: run.first,
            last: cell,
            count: run.count.saturating_add(1),
        });
    }
    push_stroke(html, &run)?;
    Ok(Run {
        first: cell,
        last: cell,
        count: 1,
    })
}

/// Appends a stroke for each run of cells side by side in a row. The only error is out of memory.
pub fn push_strokes(html: &mut Html, cells: &[(i32, i32)]) -> Result<(), AllocError> {
    let [first, others @ ..] = cells else {
        return Ok(());
    };
    let mut run = Run {
        first: *first,
        last: *first,
        count: 1,
    };
    for cell in others {
        run = next_run(html, run, *cell)?;
    }
    push_stroke(html, &run)
}
