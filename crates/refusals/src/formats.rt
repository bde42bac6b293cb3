//! Calls on rules, RLE texts, and readers.

use crate::call;
use crate::calls::{START, has_appended, promised};
use life_cells::Rule;
use life_text::{read_rle, write_rle};
use std::alloc::Global;
use watched::{Input, read_all};

const RULE: &[u8] = b"B36/S23";

// A gun, under that rule.
const GUN: &[u8] = b"x = 36, y = 9, rule = B36/S23
24bo$22bobo$12b2o6b2o12b2o$11bo3bo4b2o12b2o$2o8bo5bo3b2o$2o8bo3bob2o4b
obo$10bo5bo7bo$11bo3bo$12b2o!
";

/// Calls that read and append rules and patterns.
pub fn call_texts(rt: &impl Print, alloc: Global) -> Option<()> {
    let rule = Rule::parse(RULE).ok()?;
    let mut text = Vec::from_slice(alloc, START).ok()?;
    call!(
        rt,
        "Rule::text_into",
        rule.text_into(&mut text),
        text.as_slice() == START,
    )?;
    promised(has_appended(&text, RULE))?;
    let gun = call!(rt, "read_rle", read_rle(alloc, GUN))?;
    let mut text = Vec::from_slice(alloc, START).ok()?;
    call!(
        rt,
        "write_rle",
        write_rle(&gun.rule(), gun.cells(), &mut text),
        text.as_slice() == START,
    )?;
    promised(has_appended(&text, GUN))
}

// Bytes that are read in several parts.
fn many(alloc: Global) -> Option<Vec<u8>> {
    let mut bytes = Vec::new(alloc);
    for number in 0..50_000u32 {
        bytes.push((number % 251) as u8).ok()?;
    }
    Some(bytes)
}

/// A call that reads up to the end.
pub fn call_readers(rt: &impl Print, alloc: Global) -> Option<()> {
    let bytes = many(alloc)?;
    let read = call!(
        rt,
        "read_all",
        read_all(alloc, &mut Input::new(bytes.as_slice()), bytes.len()),
    )?;
    promised(read.as_slice() == bytes.as_slice())
}
