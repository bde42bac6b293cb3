//! The facts of a pattern.
ghost use Rattle.std.specs.Prelude.{◌≡◌, ◌++◌, [], ◌∷◌, OnOk};
ghost use Rattle.std.specs.Option.{option_copied};
ghost use Rattle.census_identify.specs.Blocks.Things.{apart_things, code_things, file_things, head_things, known_things, name_things, parts_things, settled_things, whole_things};
ghost use Rattle.census_facts.specs.Names.{name_in};
ghost use Rattle.census_facts.specs.Facts.{content_of, thing, things_in};

use crate::blocks::known::Known;
use crate::blocks::whole::Whole;
use census_facts::{Fact, Names, Worth};
use life_answer::{Outcome, Parts};
use std::alloc::AllocError;

// Adds a fact.
fn push_fact<'a>(
    facts: &mut Vec<Fact<'a>>,
    name: &'static str,
    worth: Worth<'a>,
) -> Result<(), AllocError>
    ensures { OnOk result (things_in facts.new.items
        ≡ things_in facts.old.items ++ thing name.now (content_of worth.entry) ∷ []) }
{
    facts.push(Fact { name, worth })?;
    Ok(())
}

// Adds the file that a pattern is from, where it is from one.
fn push_file<'a>(facts: &mut Vec<Fact<'a>>, file: Option<&'a [u8]>) -> Result<(), AllocError>
    ensures { OnOk result (things_in facts.new.items
        ≡ things_in facts.old.items ++ file_things (option_copied file.entry)) }
{
    match file {
        Some(file) => push_fact(facts, "file", Worth::Text(file)),
        None => Ok(()),
    }
}

/// Adds the facts about generation 0: the file that the pattern is from, where it is from one, its rule, its number of cells,
/// and the width and the height of its bounding box.
pub fn push_head<'a>(
    facts: &mut Vec<Fact<'a>>,
    file: Option<&'a [u8]>,
    rule: &'a [u8],
    population: usize,
    size: (u32, u32),
) -> Result<(), AllocError>
    ensures { OnOk result (things_in facts.new.items ≡ things_in facts.old.items
        ++ head_things (option_copied file.entry) rule.now population size) }
{
    let (width, height) = size;
    push_file(facts, file)?;
    push_fact(facts, "rule", Worth::Text(rule))?;
    push_fact(facts, "population", Worth::Number(population as u64))?;
    push_fact(facts, "box", Worth::Size(width, height))
}

// Adds the name of the object of a code, where it has one.
fn push_name<'a>(facts: &mut Vec<Fact<'a>>, names: &'a Names, code: &[u8]) -> Result<(), AllocError>
    ensures { OnOk result (things_in facts.new.items
        ≡ things_in facts.old.items ++ name_things (name_in names.now code.now)) }
{
    match names.name_of(code) {
        Some(name) => push_fact(facts, "name", Worth::Text(name)),
        None => Ok(()),
    }
}

// Adds the code of a pattern that settles, and its name, where it has one.
fn push_code<'a>(
    facts: &mut Vec<Fact<'a>>,
    names: &'a Names,
    code: &'a [u8],
) -> Result<(), AllocError>
    ensures { OnOk result (things_in facts.new.items
        ≡ things_in facts.old.items ++ code_things names.now code.now) }
{
    push_fact(facts, "apgcode", Worth::Text(code))?;
    push_name(facts, names, code)
}

// Adds the facts about a pattern that settles.
fn push_settled<'a>(
    facts: &mut Vec<Fact<'a>>,
    names: &'a Names,
    onset: u32,
    period: u32,
    dx: i32,
    dy: i32,
    code: &'a [u8],
) -> Result<(), AllocError>
    ensures { OnOk result (things_in facts.new.items ≡ things_in facts.old.items
        ++ settled_things names.now onset period dx dy code.now) }
{
    push_fact(facts, "onset", Worth::Number(onset as u64))?;
    push_fact(facts, "period", Worth::Number(period as u64))?;
    push_fact(facts, "displacement", Worth::Moves(dx, dy))?;
    push_code(facts, names, code)
}

// Adds the period and the displacement of a pattern as a whole, where it recurs as one.
fn push_whole<'a>(facts: &mut Vec<Fact<'a>>, whole: &Option<Whole>) -> Result<(), AllocError>
    ensures { OnOk result (things_in facts.new.items
        ≡ things_in facts.old.items ++ whole_things whole.now) }
{
    match whole {
        Some(whole) => {
            let (dx, dy) = whole.displacement;
            push_fact(facts, "period", Worth::Number(whole.period as u64))?;
            push_fact(facts, "displacement", Worth::Moves(dx, dy))
        }
        None => Ok(()),
    }
}

// Adds the parts that a pattern has become.
fn push_parts<'a>(facts: &mut Vec<Fact<'a>>, parts: &'a Parts) -> Result<(), AllocError>
    ensures { OnOk result (things_in facts.new.items
        ≡ things_in facts.old.items ++ parts_things parts.now) }
{
    push_fact(facts, "objects", Worth::Number(parts.count()))?;
    push_fact(facts, "parts", Worth::Parts(parts))
}

// Adds the facts about a pattern that has fallen apart.
fn push_apart<'a>(
    facts: &mut Vec<Fact<'a>>,
    onset: u32,
    whole: &Option<Whole>,
    parts: &'a Parts,
) -> Result<(), AllocError>
    ensures { OnOk result (things_in facts.new.items ≡ things_in facts.old.items
        ++ apart_things onset whole.now parts.now) }
{
    push_fact(facts, "onset", Worth::Number(onset as u64))?;
    push_whole(facts, whole)?;
    push_parts(facts, parts)
}

/// Adds the facts known about a pattern within the bound, with the name of its code, where it recurs and has one.
pub fn push_known<'a>(
    facts: &mut Vec<Fact<'a>>,
    names: &'a Names,
    known: &'a Known,
    bound: u32,
) -> Result<(), AllocError>
    ensures { OnOk result (things_in facts.new.items ≡ things_in facts.old.items
        ++ known_things names.now bound known.now) }
{
    match &known.outcome {
        Outcome::Recurs {
            onset,
            period,
            dx,
            dy,
            code,
        } => push_settled(facts, names, *onset, *period, *dx, *dy, code.as_slice()),
        Outcome::Ash { onset, parts } => push_apart(facts, *onset, &known.whole, parts),
        Outcome::Grows { engines } => push_fact(facts, "engines", Worth::Engines(engines)),
        Outcome::Large { generation } => {
            push_fact(facts, "large", Worth::Number(*generation as u64))
        }
        Outcome::Unresolved => push_fact(facts, "unresolved", Worth::Number(bound as u64)),
    }
}
