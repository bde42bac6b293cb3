//! Facts as members of a JSON object.
ghost use Rattle.std.specs.Prelude.{◌≡◌, ◌++◌, IfOk, OnOk, map};
ghost use Rattle.serde_json.specs.Data.{no_members, object};
ghost use Rattle.serde_json.specs.View.{members_view, view};
ghost use Rattle.census_facts.specs.Facts.{content_of, things_in};
ghost use Rattle.census_facts.specs.Values.{content_data, kind_data, object_line, part_data, size_data, with_things};

use crate::fact::{Fact, Worth};
use crate::json::{counted_value, displacement_value, engines_value, push_value};
use crate::names::Names;
use life_answer::{Engines, Part};
use serde_json::{Map, Value, put};
use std::alloc::{AllocError, Global};

// The list of a width and a height.
fn size_value(alloc: Global, width: u32, height: u32) -> Result<Value, AllocError>
    ensures { IfOk result (λ value. view value ≡ size_data width height) }
{
    let mut numbers = Vec::new(alloc);
    numbers.push(Value::from(width))?;
    numbers.push(Value::from(height))?;
    Ok(Value::Array(numbers))
}

// An object for each part.
fn part_values(alloc: Global, names: &Names, parts: &[Part]) -> Result<Vec<Value>, AllocError>
    ensures { IfOk result (λ values. map view values.items ≡ map (part_data names.now) parts.now) }
{
    let mut values = Vec::new(alloc);
    for part in parts {
        let code = part.code.as_slice();
        let name = names.name_of(code);
        values.push(counted_value(alloc, code, part.count, name)?)?;
    }
    Ok(values)
}

// The object of engines with the same description.
fn kind_value(alloc: Global, names: &Names, kind: &Engines) -> Result<Value, AllocError>
    ensures { IfOk result (λ value. view value ≡ kind_data names.now kind.now) }
{
    let tale = &kind.tale;
    let moved = (tale.dx as i64, tale.dy as i64);
    let emits = part_values(alloc, names, tale.emits.as_slice())?;
    engines_value(alloc, tale.period as u64, moved, kind.count, emits)
}

// An object for each kind of engines.
fn kind_values(alloc: Global, names: &Names, kinds: &[Engines]) -> Result<Vec<Value>, AllocError>
    ensures { IfOk result (λ values. map view values.items ≡ map (kind_data names.now) kinds.now) }
{
    let mut values = Vec::new(alloc);
    for kind in kinds {
        values.push(kind_value(alloc, names, kind)?)?;
    }
    Ok(values)
}

// The value of a fact.
fn value_of(alloc: Global, names: &Names, worth: &Worth) -> Result<Value, AllocError>
    ensures { IfOk result (λ value. view value ≡ content_data names.now (content_of worth.now)) }
{
    match worth {
        Worth::Number(number) => Ok(Value::from(*number)),
        Worth::Size(width, height) => size_value(alloc, *width, *height),
        Worth::Moves(dx, dy) => displacement_value(alloc, *dx as i64, *dy as i64),
        Worth::Text(bytes) => Ok(Value::String(String::from_utf8_lossy(alloc, bytes)?)),
        Worth::Parts(parts) => Ok(Value::Array(part_values(alloc, names, parts.as_slice())?)),
        Worth::Engines(engines) => Ok(Value::Array(kind_values(alloc, names, engines.as_slice())?)),
    }
}

// Sets a member for each fact.
fn put_facts(
    alloc: Global,
    members: &mut Map<String, Value>,
    names: &Names,
    facts: &[Fact],
) -> Result<(), AllocError>
    ensures { OnOk result (members_view members.new.entries
        ≡ with_things names.now (things_in facts.now) (members_view members.old.entries)) }
{
    for fact in facts {
        let value = value_of(alloc, names, &fact.worth)?;
        put(members, alloc, fact.name, value)?;
    }
    Ok(())
}

// The object of facts.
fn object_of(alloc: Global, names: &Names, facts: &[Fact]) -> Result<Value, AllocError>
    ensures { IfOk result
        (λ value. view value ≡ object (with_things names.now (things_in facts.now) no_members)) }
{
    let mut members = Map::new(alloc);
    put_facts(alloc, &mut members, names, facts)?;
    Ok(Value::Object(members))
}

/// Appends the object of facts, on a line of its own: a member for each, in the order of their names.
pub(crate) fn push_object(
    alloc: Global,
    text: &mut Vec<u8>,
    names: &Names,
    facts: &[Fact],
) -> Result<(), AllocError>
    ensures { OnOk result (text.new.items ≡ text.old.items ++ object_line names.now (things_in facts.now)) }
{
    let value = object_of(alloc, names, facts)?;
    push_value(alloc, text, &value)
}
