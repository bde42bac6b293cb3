//! The growth of patterns, in words, and the objects that they emit.
ghost use Rattle.watched.specs.Telling.{sheet};
ghost use Rattle.census_page.specs.Pages.{PutsBits};

use crate::html::Html;
use crate::kind::{Kind, kind_of};
use crate::links::push_counted;
use crate::own::{
    EMITS, ENGINE, ENGINE_LIST, GUN, ITEM, LEAVES, LIST_END, MOVES, MOVES_BY, MOVES_END, OF_PERIOD,
    PAIR_NEXT, PLURAL, PUFFER, RAKE, SEVERAL, THAT,
};
use crate::picture::{push_picture, spelled};
use crate::putting::{put_html, put_own};
use census_readback::emits_first;
use census_rows::{Row, Section};
use std::alloc::{AllocError, Global};
use std::io::Write;
use watched::{Block, Output};

// A kind of engine.
#[derive(Clone, Copy)]
enum EngineKind {
    // It stays in its place.
    Gun,
    // It moves, and emits only spaceships.
    Rake,
    // It moves, and leaves other objects.
    Puffer,
}

// True where all rows report emitted spaceships.
fn emit_ships(rows: &Section) -> bool {
    for index in 0..rows.len() {
        match rows.row(index) {
            Row::Emits { code, .. } if kind_of(code) == Kind::Spaceship => {}
            _ => return false,
        }
    }
    true
}

// The kind of an engine with this displacement in a period that emits what these rows list.
fn engine_kind(dx: i64, dy: i64, emits: &Section) -> EngineKind {
    if dx == 0 && dy == 0 {
        EngineKind::Gun
    } else if emit_ships(emits) {
        EngineKind::Rake
    } else {
        EngineKind::Puffer
    }
}

// The number of the text with the name of a kind of engine.
fn name_of(kind: EngineKind) -> usize {
    match kind {
        EngineKind::Gun => GUN,
        EngineKind::Rake => RAKE,
        EngineKind::Puffer => PUFFER,
    }
}

// Adds a verb, for one thing or for several.
fn push_verb(html: &mut Html, word: usize, number: u64) -> Result<(), AllocError> {
    html.own(word)?;
    if number == 1 {
        html.own(PLURAL)?;
    }
    Ok(())
}

// Adds the displacement of engines in a period, to the right and down.
fn push_moves(html: &mut Html, dx: i64, dy: i64, number: u64) -> Result<(), AllocError> {
    push_verb(html, MOVES, number)?;
    html.own(MOVES_BY)?;
    html.signed(dx)?;
    html.own(PAIR_NEXT)?;
    html.signed(dy)?;
    html.own(MOVES_END)
}

// Adds the words for what engines do in a period.
fn push_deeds(
    html: &mut Html,
    kind: EngineKind,
    dx: i64,
    dy: i64,
    number: u64,
) -> Result<(), AllocError> {
    match kind {
        EngineKind::Gun => push_verb(html, EMITS, number),
        EngineKind::Rake => {
            push_moves(html, dx, dy, number)?;
            push_verb(html, EMITS, number)
        }
        EngineKind::Puffer => {
            push_moves(html, dx, dy, number)?;
            push_verb(html, LEAVES, number)
        }
    }
}

// Adds `number` engines of a kind.
fn push_head(
    html: &mut Html,
    kind: EngineKind,
    period: u64,
    number: u64,
) -> Result<(), AllocError> {
    html.own(ENGINE)?;
    if number != 1 {
        html.grouped(number)?;
        html.own(SEVERAL)?;
    }
    html.own(name_of(kind))?;
    html.plural(number)?;
    html.own(OF_PERIOD)?;
    html.grouped(period)?;
    html.own(THAT)
}

// The words for the engines of a row, before the list of what each emits. They are empty for a row that describes none.
fn engine_words(alloc: Global, row: &Row, emits: &Section) -> Result<Html, AllocError> {
    let mut html = Html::new(alloc);
    match row {
        Row::Engine {
            period,
            dx,
            dy,
            count,
            ..
        } => {
            let kind = engine_kind(*dx, *dy, emits);
            push_head(&mut html, kind, *period, *count)?;
            push_deeds(&mut html, kind, *dx, *dy, *count)?;
            html.own(ENGINE_LIST)?;
        }
        _ => {}
    }
    Ok(html)
}

// The item of the objects with a code that are emitted, with their picture.
fn emitted(alloc: Global, linked: bool, rule: &[u8], row: &Row) -> Result<Html, AllocError> {
    let mut html = Html::new(alloc);
    match row {
        Row::Emits { code, count, .. } => {
            let shape = spelled(alloc, *code)?;
            html.own(ITEM)?;
            push_picture(&mut html, &shape)?;
            push_counted(alloc, &mut html, linked, rule, *code, *count)?;
        }
        _ => {}
    }
    Ok(html)
}

// Writes the objects that are emitted.
fn put_emitted<W: Write>(
    alloc: Global,
    linked: bool,
    rule: &[u8],
    emits: &Section,
    block: &mut Block,
    writer: &mut Output<W>,
) -> Result<(), AllocError>
    ensures { PutsBits result (sheet block.old writer.old) (sheet block.new writer.new) }
{
    for index in 0..emits.len() {
        let html = emitted(alloc, linked, rule, &emits.row(index))?;
        put_html(&html, block, writer);
    }
    Ok(())
}

// True where a row describes engines.
fn is_engine(row: &Row) -> bool {
    match row {
        Row::Engine { .. } => true,
        _ => false,
    }
}

// Writes the engines that a row describes. The first of the rows after it list what each emits.
fn put_engine<W: Write>(
    alloc: Global,
    linked: bool,
    rule: &[u8],
    row: &Row,
    behind: &Section,
    block: &mut Block,
    writer: &mut Output<W>,
) -> Result<(), AllocError>
    ensures { PutsBits result (sheet block.old writer.old) (sheet block.new writer.new) }
{
    if !is_engine(row) {
        return Ok(());
    }
    let emits = emits_first(behind);
    let words = engine_words(alloc, row, &emits)?;
    put_html(&words, block, writer);
    put_emitted(alloc, linked, rule, &emits, block, writer)?;
    put_own(LIST_END, block, writer);
    Ok(())
}

/// Writes the engines of rows in words, such as `gun of period 30 that emits`, each with a list of what it emits: the picture,
/// the code, which is a link under this rule if codes are `linked`, and the number of objects. The row of each engine is
/// followed by those that list what it emits. The only error is out of memory; then only a prefix is written.
pub fn put_growth<W: Write>(
    alloc: Global,
    linked: bool,
    rule: &[u8],
    rows: &Section,
    block: &mut Block,
    writer: &mut Output<W>,
) -> Result<(), AllocError>
    ensures { PutsBits result (sheet block.old writer.old) (sheet block.new writer.new) }
{
    for index in 0..rows.len() {
        let row = rows.row(index);
        let behind = rows.from(index + 1);
        put_engine(alloc, linked, rule, &row, &behind, block, writer)?;
    }
    Ok(())
}
