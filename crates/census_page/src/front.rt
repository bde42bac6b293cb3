//! The parts of the page before and after the table of all collections, and its foot.
use crate::html::Html;
use crate::kind::Kind;
use crate::kinds::count_kinds;
use crate::options::PageOptions;
use crate::own::{
    ALL_OBJECTS, CHOICES, CHOICES_END, COLLECTIONS, FOOT, KINDS, NOTE, NOTE_END, OSCILLATORS,
    OTHERS, PAGE, PAGE_END, PATTERNS, REFUSED, RESOLVED, SPACESHIPS, STILL_LIFES, STYLE, TITLE_END,
    TOTALS_END, UNRESOLVED,
};
use crate::tally::{Which, count_of, objects_of};
use census_facts::VERSION;
use census_rows::{Class, Rows};
use std::alloc::{AllocError, Global};

// Adds a text of the template and the number of these rows.
fn push_count(html: &mut Html, word: usize, which: Which, rows: &Rows) -> Result<(), AllocError> {
    html.own(word)?;
    html.grouped(count_of(which, rows))
}

// Adds the numbers of collections, patterns, kinds of objects and objects, and of patterns by their class.
fn push_totals(
    alloc: Global,
    html: &mut Html,
    collections: u64,
    rows: &Rows,
) -> Result<(), AllocError> {
    let kinds = count_kinds(alloc, rows)?;
    html.own(COLLECTIONS)?;
    html.grouped(collections)?;
    push_count(html, PATTERNS, Which::Patterns, rows)?;
    push_count(html, RESOLVED, Which::Are(Class::Resolved), rows)?;
    push_count(html, UNRESOLVED, Which::Are(Class::Unresolved), rows)?;
    push_count(html, REFUSED, Which::Are(Class::Refused), rows)?;
    html.own(KINDS)?;
    html.grouped(kinds)?;
    html.own(ALL_OBJECTS)?;
    html.grouped(objects_of(rows))?;
    html.own(TOTALS_END)
}

// Adds a note, if there is one.
fn push_note(alloc: Global, html: &mut Html, note: &[u8]) -> Result<(), AllocError> {
    if note.is_empty() {
        return Ok(());
    }
    html.own(NOTE)?;
    html.text(alloc, note)?;
    html.own(NOTE_END)
}

/// The page before the table of all collections: its title, its note, the numbers of collections, patterns, kinds of objects
/// and objects, and of patterns by their class. The only error is out of memory.
pub fn front(
    alloc: Global,
    options: &PageOptions,
    collections: u64,
    rows: &Rows,
) -> Result<Html, AllocError> {
    let mut html = Html::new(alloc);
    html.own(PAGE)?;
    html.text(alloc, options.title)?;
    html.own(STYLE)?;
    html.text(alloc, options.title)?;
    html.own(TITLE_END)?;
    push_note(alloc, &mut html, options.note)?;
    push_totals(alloc, &mut html, collections, rows)?;
    Ok(html)
}

/// The kinds of rows that can be chosen, with their numbers, where all patterns are shown or not. The only error is out of
/// memory.
pub fn choices(alloc: Global, patterns: bool, rows: &Rows) -> Result<Html, AllocError> {
    let mut html = Html::new(alloc);
    push_count(&mut html, CHOICES, Which::Shown(patterns), rows)?;
    push_count(&mut html, STILL_LIFES, Which::Of(Kind::StillLife), rows)?;
    push_count(&mut html, OSCILLATORS, Which::Of(Kind::Oscillator), rows)?;
    push_count(&mut html, SPACESHIPS, Which::Of(Kind::Spaceship), rows)?;
    push_count(&mut html, OTHERS, Which::Others(patterns), rows)?;
    html.own(CHOICES_END)?;
    Ok(html)
}

/// The end of the page, with the version of the program. The only error is out of memory.
pub fn foot(alloc: Global) -> Result<Html, AllocError> {
    let mut html = Html::new(alloc);
    html.own(FOOT)?;
    html.text(alloc, VERSION.as_bytes())?;
    html.own(PAGE_END)?;
    Ok(html)
}
