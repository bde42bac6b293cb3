//! Facts as lines.
ghost use Rattle.std.specs.Prelude.{◌≡◌, ◌++◌, [], ◌∷◌, OnOk, codes, decimal, map};
ghost use Rattle.std.specs.Fmt.{signed_decimal};
ghost use Rattle.census_facts.specs.Names.{name_in};
ghost use Rattle.census_facts.specs.Facts.{thing_of, things_in};
ghost use Rattle.census_facts.specs.Lines.{content_lines, fields_text, line, name_values, part_line, text_of, things_lines};

use crate::engines::push_engines;
use crate::fact::{Fact, Worth};
use crate::names::Names;
use itoa::{Buffer, Integer};
use life_answer::Part;
use std::alloc::AllocError;

// Adds a blank and these bytes.
pub(crate) fn push_field(text: &mut Vec<u8>, field: &[u8]) -> Result<(), AllocError>
    ensures { OnOk result (text.new.items ≡ text.old.items ++ 32 ∷ field.now) }
{
    text.push(b' ')?;
    text.extend_from_slice(field)?;
    Ok(())
}

// Adds a blank and a number.
pub(crate) fn push_number<I: Integer>(text: &mut Vec<u8>, number: I) -> Result<(), AllocError>
    ensures { OnOk result (text.new.items ≡ text.old.items ++ 32 ∷ I.text number) }
{
    let mut buffer = Buffer::new();
    push_field(text, buffer.format(number).as_bytes())
}

// Adds the line of a name and a number.
#[tactic(auto, unfolding(crate::specs::Lines::line))]
fn push_one<I: Integer>(text: &mut Vec<u8>, name: &[u8], number: I) -> Result<(), AllocError>
    ensures { OnOk result (text.new.items ≡ text.old.items ++ line name.now (I.text number ∷ [])) }
{
    text.extend_from_slice(name)?;
    push_number(text, number)?;
    text.push(b'\n')?;
    Ok(())
}

// Adds the line of a name, a width and a height.
#[tactic(auto, unfolding(crate::specs::Lines::line))]
fn push_size(text: &mut Vec<u8>, name: &[u8], width: u32, height: u32) -> Result<(), AllocError>
    ensures { OnOk result (text.new.items ≡ text.old.items
        ++ line name.now (decimal width ∷ decimal height ∷ [])) }
{
    text.extend_from_slice(name)?;
    push_number(text, width)?;
    push_number(text, height)?;
    text.push(b'\n')?;
    Ok(())
}

// Adds the line of a name and bytes.
#[tactic(auto, unfolding(crate::specs::Lines::line))]
fn push_bytes(text: &mut Vec<u8>, name: &[u8], bytes: &[u8]) -> Result<(), AllocError>
    ensures { OnOk result (text.new.items ≡ text.old.items ++ line name.now (bytes.now ∷ [])) }
{
    text.extend_from_slice(name)?;
    push_field(text, bytes)?;
    text.push(b'\n')?;
    Ok(())
}

// Adds a displacement: a blank and a number, twice.
pub(crate) fn push_moves(text: &mut Vec<u8>, dx: &i32, dy: &i32) -> Result<(), AllocError>
    ensures { OnOk result
        (text.new.items ≡
        text.old.items ++ fields_text (signed_decimal dx.now ∷ signed_decimal dy.now ∷ [])) }
{
    push_number(text, *dx)?;
    push_number(text, *dy)
}

// Adds the line of a name and a displacement.
#[tactic(auto, unfolding(crate::specs::Lines::line))]
fn push_displacement(text: &mut Vec<u8>, name: &[u8], dx: &i32, dy: &i32) -> Result<(), AllocError>
    ensures { OnOk result (text.new.items ≡ text.old.items
        ++ line name.now (signed_decimal dx.now ∷ signed_decimal dy.now ∷ [])) }
{
    text.extend_from_slice(name)?;
    push_moves(text, dx, dy)?;
    text.push(b'\n')?;
    Ok(())
}

// Adds a blank and the name of the object with this code, if it has one.
pub(crate) fn push_name(text: &mut Vec<u8>, names: &Names, code: &[u8]) -> Result<(), AllocError>
    ensures { OnOk result (text.new.items
        ≡ text.old.items ++ fields_text (name_values (name_in names.now code.now))) }
{
    match names.name_of(code) {
        Some(name) => push_field(text, name),
        None => Ok(()),
    }
}

// Adds the line of the parts that have one code.
#[tactic(auto, unfolding(crate::specs::Lines::line))]
fn push_part(text: &mut Vec<u8>, names: &Names, part: &Part) -> Result<(), AllocError>
    ensures { OnOk result (text.new.items ≡ text.old.items ++ part_line names.now part.now) }
{
    text.extend_from_slice(b"part")?;
    push_field(text, part.code.as_slice())?;
    push_number(text, part.count)?;
    push_name(text, names, part.code.as_slice())?;
    text.push(b'\n')?;
    Ok(())
}

// Adds the lines of all parts.
fn push_parts(text: &mut Vec<u8>, names: &Names, parts: &[Part]) -> Result<(), AllocError>
    ensures { OnOk result
        (text.new.items ≡ text.old.items ++ text_of (map (part_line names.now) parts.now)) }
{
    for part in parts {
        push_part(text, names, part)?;
    }
    Ok(())
}

// Adds the lines of a fact.
fn push_fact(text: &mut Vec<u8>, names: &Names, fact: &Fact) -> Result<(), AllocError>
    ensures { OnOk result (text.new.items ≡ text.old.items
        ++ text_of (content_lines names.now (thing_of fact.now).name (thing_of fact.now).content)) }
{
    let name = fact.name.as_bytes();
    match &fact.worth {
        Worth::Number(number) => push_one(text, name, *number),
        Worth::Size(width, height) => push_size(text, name, *width, *height),
        Worth::Moves(dx, dy) => push_displacement(text, name, dx, dy),
        Worth::Text(bytes) => push_bytes(text, name, bytes),
        Worth::Parts(parts) => push_parts(text, names, parts.as_slice()),
        Worth::Engines(engines) => {
            push_one(text, name, engines.count())?;
            push_engines(text, names, engines.as_slice())
        }
    }
}

/// Appends the lines of facts, one fact after another.
pub(crate) fn push_facts(
    text: &mut Vec<u8>,
    names: &Names,
    facts: &[Fact],
) -> Result<(), AllocError>
    ensures { OnOk result
        (text.new.items ≡ text.old.items ++ things_lines names.now (things_in facts.now)) }
{
    for fact in facts {
        push_fact(text, names, fact)?;
    }
    Ok(())
}
