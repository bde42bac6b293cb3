//! The engines of a pattern that grows, and its `engine` and `emits` lines.
ghost use Rattle.std.specs.Prelude.{◌≡◌, ◌++◌, [], ◌∷◌, OnOk, decimal, map};
ghost use Rattle.std.specs.Fmt.{signed_decimal};
ghost use Rattle.census_format.specs.Lines.{emits_row, engine_row, engine_rows, rows_of_engines};
ghost use Rattle.census_rows.specs.Lines.{fields_text, line_of, text_of};

use census_bundle::Ticket;
use census_rows::{push_count, push_field};
use itoa::Buffer;
use life_answer::{Engines, Part, Tale};
use std::alloc::AllocError;

// Appends a line's word, and the numbers of the collection, of the pattern and of the engines.
fn push_start(
    text: &mut Vec<u8>,
    word: &[u8],
    ticket: Ticket,
    number: u64,
) -> Result<(), AllocError>
    ensures { OnOk result (text.new.items ≡ text.old.items ++ word.now
        ++ fields_text (decimal ticket.folder ∷ decimal ticket.number ∷ decimal number ∷ [])) }
{
    text.extend_from_slice(word)?;
    push_count(text, u64::from(ticket.folder))?;
    push_count(text, u64::from(ticket.number))?;
    push_count(text, number)
}

// Appends a space and a displacement along one axis.
fn push_moved(text: &mut Vec<u8>, moved: i32) -> Result<(), AllocError>
    ensures { OnOk result (text.new.items ≡ text.old.items ++ 32 ∷ signed_decimal moved) }
{
    let mut buffer = Buffer::new();
    push_field(text, buffer.format(moved).as_bytes())
}

// Appends the number of generations after which an engine recurs, and its displacement to the right and down then.
fn push_way(text: &mut Vec<u8>, tale: &Tale) -> Result<(), AllocError>
    ensures { OnOk result (text.new.items ≡ text.old.items ++ fields_text
        (decimal tale.now.period ∷ signed_decimal tale.now.dx ∷ signed_decimal tale.now.dy ∷ [])) }
{
    push_count(text, u64::from(tale.period))?;
    push_moved(text, tale.dx)?;
    push_moved(text, tale.dy)
}

// Appends the line of engines with the same tale.
fn push_engine(
    text: &mut Vec<u8>,
    ticket: Ticket,
    number: u64,
    engines: &Engines,
) -> Result<(), AllocError>
    ensures { OnOk result (text.new.items ≡
        text.old.items ++ line_of (engine_row ticket.folder ticket.number number engines.now)) }
{
    push_start(text, b"engine", ticket, number)?;
    push_way(text, &engines.tale)?;
    push_count(text, engines.count)?;
    text.push(b'\n')?;
    Ok(())
}

// Appends the line of those parts of what an engine emits that are one object.
fn push_emitted(
    text: &mut Vec<u8>,
    ticket: Ticket,
    number: u64,
    part: &Part,
) -> Result<(), AllocError>
    ensures { OnOk result (text.new.items ≡
        text.old.items ++ line_of (emits_row ticket.folder ticket.number number part.now)) }
{
    push_start(text, b"emits", ticket, number)?;
    push_field(text, part.code.as_slice())?;
    push_count(text, part.count)?;
    text.push(b'\n')?;
    Ok(())
}

// Appends the lines of all that an engine emits.
fn push_emits(
    text: &mut Vec<u8>,
    ticket: Ticket,
    number: u64,
    parts: &[Part],
) -> Result<(), AllocError>
    ensures { OnOk result (text.new.items ≡
        text.old.items ++ text_of (map (emits_row ticket.folder ticket.number number) parts.now)) }
{
    for part in parts {
        push_emitted(text, ticket, number, part)?;
    }
    Ok(())
}

/// Appends the lines of all engines, those with the same tale together.
pub(crate) fn push_engines(
    text: &mut Vec<u8>,
    ticket: Ticket,
    lines: &[Engines],
) -> Result<(), AllocError>
    ensures { OnOk result (text.new.items ≡
        text.old.items ++ text_of (rows_of_engines ticket.folder ticket.number 1 lines.now)) }
{
    for n in 0..lines.len() {
        let engines = &lines[n];
        let number = n as u64 + 1;
        push_engine(text, ticket, number, engines)?;
        push_emits(text, ticket, number, engines.tale.emits.as_slice())?;
    }
    Ok(())
}
