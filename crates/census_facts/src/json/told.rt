//! The JSON of objects and of engines. The only error is out of memory.
ghost use Rattle.std.specs.Prelude.{◌≡◌, IfOk, OnOk, map, option_map};
ghost use Rattle.serde_json.specs.View.{members_view, view};
ghost use Rattle.census_facts.specs.Json.Values.{counted_data, displacement_data, engines_data, with_text};

use serde_json::{Map, Value, put};
use std::alloc::{AllocError, Global};

// Sets the member of a text, if there is one.
fn put_text(
    alloc: Global,
    members: &mut Map<String, Value>,
    name: &str,
    text: Option<&[u8]>,
) -> Result<(), AllocError>
    ensures { OnOk result (members_view members.new.entries
        ≡ with_text name.now (option_map (λ t. t.now) text.entry) (members_view members.old.entries)) }
{
    let Some(text) = text else {
        return Ok(());
    };
    let text = String::from_utf8_lossy(alloc, text)?;
    put(members, alloc, name, Value::String(text))
}

/// The object of `count` objects with a code: `code`, `count`, and `name` if the object has a name.
pub fn counted_value(
    alloc: Global,
    code: &[u8],
    count: u64,
    name: Option<&[u8]>,
) -> Result<Value, AllocError>
    ensures { IfOk result (λ value. view value
        ≡ counted_data code.now count (option_map (λ n. n.now) name.entry)) }
{
    let code = String::from_utf8_lossy(alloc, code)?;
    let mut members = Map::new(alloc);
    put(&mut members, alloc, "code", Value::String(code))?;
    put(&mut members, alloc, "count", Value::from(count))?;
    put_text(alloc, &mut members, "name", name)?;
    Ok(Value::Object(members))
}

/// The list of a displacement: the number of cells to the right, and the number of cells down.
pub fn displacement_value(alloc: Global, dx: i64, dy: i64) -> Result<Value, AllocError>
    ensures { IfOk result (λ value. view value ≡ displacement_data dx dy) }
{
    let mut numbers = Vec::new(alloc);
    numbers.push(Value::from(dx))?;
    numbers.push(Value::from(dy))?;
    Ok(Value::Array(numbers))
}

/// The object of engines with the same description: their period in generations, the displacement of each in a period, their
/// number, and the objects that each emits in a period.
pub fn engines_value(
    alloc: Global,
    period: u64,
    displacement: (i64, i64),
    count: u64,
    emits: Vec<Value>,
) -> Result<Value, AllocError>
    ensures { IfOk result (λ value. view value
        ≡ engines_data period displacement.0 displacement.1 count (map view emits.items)) }
{
    let (dx, dy) = displacement;
    let displacement = displacement_value(alloc, dx, dy)?;
    let mut members = Map::new(alloc);
    put(&mut members, alloc, "count", Value::from(count))?;
    put(&mut members, alloc, "displacement", displacement)?;
    put(&mut members, alloc, "emits", Value::Array(emits))?;
    put(&mut members, alloc, "period", Value::from(period))?;
    Ok(Value::Object(members))
}
