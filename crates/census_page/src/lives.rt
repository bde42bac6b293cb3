//! The lifespans of patterns.
use crate::holders::row_or_end;
use crate::html::Html;
use crate::links::push_name;
use crate::own::{
    BAR, BAR_COUNT, BAR_COUNT_Y, BAR_END, BAR_FROM, BAR_RECT, BAR_TEXT, BAR_TO, BAR_WIDTH, HALF,
    ITEM, ITEM_END, LIVES, LIVES_END, LIVES_LIST, LIVES_MEDIAN, LIVES_OF, LIVES_SIZE, LIVES_TITLE,
    ONSET_ALONE,
};
use crate::view::View;
use census_rows::{Finding, Outcome, Row, Section};
use std::alloc::{AllocError, Global};

// A collection with fewer patterns that recur or fall apart has no picture.
const MANY: usize = 100;

// The picture has at most `BARS` bars, in rows of `HEIGHT` pixels. The longest is `LENGTH` pixels long.
const BARS: u64 = 10;

const HEIGHT: u64 = 16;

const LENGTH: u64 = 140;

// The number of the patterns with the longest lives that are listed.
const LISTED: usize = 10;

// A pattern that recurs or falls apart: the generation from which it does, and the number of its row.
#[derive(Clone, Copy)]
struct Life {
    onset: u64,
    row: usize,
}

// The generation from which the pattern of a row recurs or has fallen apart, if it does.
fn onset_in(row: &Row) -> Option<u64> {
    match row {
        Row::Line {
            outcome: Outcome::Found { finding, .. },
            ..
        } => match finding {
            Finding::Ok { onset, .. } => Some(*onset),
            Finding::Ash { onset, .. } => Some(*onset),
            _ => None,
        },
        _ => None,
    }
}

// The patterns that recur or fall apart, the longest lives first.
fn lives_of(alloc: Global, rows: &Section) -> Result<Vec<Life>, AllocError> {
    let mut lives = Vec::new(alloc);
    for index in 0..rows.len() {
        if let Some(onset) = onset_in(&rows.row(index)) {
            lives.push(Life { onset, row: index })?;
        }
    }
    lives.sort_by(|one: &Life, other: &Life| other.onset.cmp(&one.onset))?;
    Ok(lives)
}

// The number of generations that a bar covers, where no life is longer than `longest`: 1, 2 or 5, or a multiple of one of these
// by a power of ten.
fn bar_span(longest: u64) -> u64 {
    let mut unit: u64 = 1;
    for _ in 0..20 {
        for factor in &[1u64, 2, 5] {
            let span = unit.saturating_mul(*factor).max(1);
            if longest / span < BARS {
                return span;
            }
        }
        unit = unit.saturating_mul(10);
    }
    u64::MAX
}

// The number of lives with a length in the span of the bar with this number.
fn count_in_bar(lives: &[Life], span: u64, bar: u64) -> u64 {
    let span = span.max(1);
    let mut count: u64 = 0;
    for life in lives {
        if life.onset / span == bar {
            count = count.saturating_add(1);
        }
    }
    count
}

// The largest number of lives in a bar, or 1 if all bars are empty.
fn largest_count(lives: &[Life], span: u64) -> u64 {
    let mut largest = 1;
    for bar in 0..BARS {
        largest = largest.max(count_in_bar(lives, span, bar));
    }
    largest
}

// Adds the lengths of the lives in a bar: a number of generations, or the first and the last.
fn push_span(html: &mut Html, span: u64, bar: u64) -> Result<(), AllocError> {
    let first = span.saturating_mul(bar);
    html.grouped(first)?;
    if span <= 1 {
        return Ok(());
    }
    html.own(BAR_TO)?;
    html.grouped(first.saturating_add(span - 1))
}

// Adds a bar: the lengths of its lives, a box, and the number of these lives.
fn push_bar(
    html: &mut Html,
    span: u64,
    bar: u64,
    count: u64,
    largest: u64,
) -> Result<(), AllocError> {
    let top = bar.saturating_mul(HEIGHT);
    let length = count.saturating_mul(LENGTH) / largest.max(1);
    let length = length.max(count.min(1));
    html.own(BAR)?;
    html.number(top.saturating_add(12))?;
    html.own(BAR_FROM)?;
    push_span(html, span, bar)?;
    html.own(BAR_RECT)?;
    html.number(top.saturating_add(2))?;
    html.own(BAR_WIDTH)?;
    html.number(length)?;
    html.own(BAR_COUNT)?;
    html.number(length.saturating_add(114))?;
    html.own(BAR_COUNT_Y)?;
    html.number(top.saturating_add(12))?;
    html.own(BAR_TEXT)?;
    html.grouped(count)?;
    html.own(BAR_END)
}

// Adds a histogram of the lifespans of patterns.
fn push_chart(html: &mut Html, lives: &[Life]) -> Result<(), AllocError> {
    let longest = match lives {
        [first, ..] => first.onset,
        [] => 0,
    };
    let span = bar_span(longest).max(1);
    let bars = (longest / span).saturating_add(1).min(BARS);
    let largest = largest_count(lives, span);
    html.own(LIVES)?;
    html.number(bars.saturating_mul(HEIGHT))?;
    html.own(LIVES_SIZE)?;
    html.number(bars.saturating_mul(HEIGHT))?;
    html.own(LIVES_TITLE)?;
    for bar in 0..bars {
        push_bar(html, span, bar, count_in_bar(lives, span, bar), largest)?;
    }
    Ok(())
}

// Twice the median of sorted lives.
fn twice_median(lives: &[Life]) -> u64 {
    let half = lives.len() / 2;
    let other = lives.len().saturating_sub(1) / 2;
    match (lives.get(half), lives.get(other)) {
        (Some(one), Some(other)) => one.onset.saturating_add(other.onset),
        _ => 0,
    }
}

// Adds the number of patterns, and the median of their lifespans.
fn push_median(html: &mut Html, lives: &[Life]) -> Result<(), AllocError> {
    let twice = twice_median(lives);
    html.own(LIVES_OF)?;
    html.grouped(lives.len() as u64)?;
    html.own(LIVES_MEDIAN)?;
    html.grouped(twice / 2)?;
    if twice % 2 == 1 {
        html.own(HALF)?;
    }
    Ok(())
}

// Adds the item of a pattern with its life.
fn push_life(
    alloc: Global,
    html: &mut Html,
    view: &View,
    rows: &Section,
    life: &Life,
) -> Result<(), AllocError> {
    match row_or_end(rows, life.row) {
        Row::Line { name, .. } => {
            html.own(ITEM)?;
            push_name(alloc, html, view, name)?;
            html.own(ONSET_ALONE)?;
            html.grouped(life.onset)?;
            html.own(ITEM_END)
        }
        _ => Ok(()),
    }
}

/// The lifespans of the patterns of a collection, if a hundred or more recur or fall apart: a histogram, the median, and the
/// ten patterns with the longest. Otherwise it is empty. The only error is out of memory.
pub fn lives(alloc: Global, view: &View, rows: &Section) -> Result<Html, AllocError> {
    let lives = lives_of(alloc, rows)?;
    let lives = lives.as_slice();
    let mut html = Html::new(alloc);
    if lives.len() < MANY {
        return Ok(html);
    }
    push_chart(&mut html, lives)?;
    push_median(&mut html, lives)?;
    html.own(LIVES_LIST)?;
    for index in 0..lives.len().min(LISTED) {
        push_life(alloc, &mut html, view, rows, &lives[index])?;
    }
    html.own(LIVES_END)?;
    Ok(html)
}
