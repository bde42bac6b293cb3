//! The lines of engines.
ghost use Rattle.std.specs.Prelude.{◌≡◌, ◌++◌, OnOk, map};
ghost use Rattle.census_facts.specs.Lines.{emits_line, engine_line, engines_lines, text_of};

use crate::lines::{push_field, push_moves, push_name, push_number};
use crate::names::Names;
use life_answer::{Engines, Part};
use std::alloc::AllocError;

// Adds the line of engines with the same description.
#[tactic(auto, unfolding(crate::specs::Lines::line))]
fn push_engine(text: &mut Vec<u8>, number: u64, engines: &Engines) -> Result<(), AllocError>
    ensures { OnOk result (text.new.items ≡ text.old.items ++ engine_line number engines.now) }
{
    text.extend_from_slice(b"engine")?;
    push_number(text, number)?;
    push_number(text, engines.tale.period)?;
    push_moves(text, &engines.tale.dx, &engines.tale.dy)?;
    push_number(text, engines.count)?;
    text.push(b'\n')?;
    Ok(())
}

// Adds the line of one object that an engine emits.
#[tactic(auto, unfolding(crate::specs::Lines::line))]
fn push_emitted(
    text: &mut Vec<u8>,
    names: &Names,
    number: u64,
    part: &Part,
) -> Result<(), AllocError>
    ensures { OnOk result
        (text.new.items ≡ text.old.items ++ emits_line names.now number part.now) }
{
    text.extend_from_slice(b"emits")?;
    push_number(text, number)?;
    push_field(text, part.code.as_slice())?;
    push_number(text, part.count)?;
    push_name(text, names, part.code.as_slice())?;
    text.push(b'\n')?;
    Ok(())
}

// Adds the lines of all objects that an engine emits.
fn push_emits(
    text: &mut Vec<u8>,
    names: &Names,
    number: u64,
    parts: &[Part],
) -> Result<(), AllocError>
    ensures { OnOk result
        (text.new.items ≡ text.old.items ++ text_of (map (emits_line names.now number) parts.now)) }
{
    for part in parts {
        push_emitted(text, names, number, part)?;
    }
    Ok(())
}

/// Appends the lines of all engines. Engines with the same description share their lines.
pub(crate) fn push_engines(
    text: &mut Vec<u8>,
    names: &Names,
    lines: &[Engines],
) -> Result<(), AllocError>
    ensures { OnOk result
        (text.new.items ≡ text.old.items ++ text_of (engines_lines names.now 1 lines.now)) }
{
    for n in 0..lines.len() {
        let engines = &lines[n];
        let number = n as u64 + 1;
        push_engine(text, number, engines)?;
        push_emits(text, names, number, engines.tale.emits.as_slice())?;
    }
    Ok(())
}
