//! What the rows of a collection count.
ghost use Rattle.std.specs.Prelude.{◌≡◌, ◌+◌, ◌<◌, ◌^◌, [], IfOk, IsTrue, length, slice_get, OnOk};
ghost use Rattle.census_rows.specs.Kinds.{said, value_at};
ghost use Rattle.census_rows.specs.declared.kinds.Label.TheVariants as label;
ghost use Rattle.census_readback.specs.Lawful.{text_in};
ghost use Rattle.census_readback.specs.Counts.{is_counted, line_counted, nothing_counted, object, part_counted};
ghost use Rattle.std.specs.Option.{unwrap_or};

use crate::lawful::text_at;
use crate::sums::{Object, Sums};
use census_rows::{Label, Outcome};
use std::alloc::{AllocError, Global};
use std::marker::Model;

// The rule of an outcome, or no byte.
fn rule_of<'a>(outcome: &Outcome<'a>) -> &'a [u8]
    ensures { result.now ≡ unwrap_or (text_in (value_at label.Rule (said outcome.now).fields)) [] }
{
    match text_at(outcome, Label::Rule) {
        Some(rule) => rule,
        None => &[],
    }
}

// What the lines so far have counted.
#[derive(Drop)]
struct Held<'a> {
    // The rule of the last line.
    rule: &'a [u8],
    sums: Sums<'a>,
}

// The objects that were counted, each once, in the order of first appearance.
#[derive(Drop)]
pub struct Counts<'a> {
    // `None` before the first line, so that it takes no memory.
    held: Option<Box<Held<'a>>>,
}

impl<'a> Model for Counts<'a> {
    ghost use Rattle.census_readback.specs.Counts as counts;
    ghost use Rattle.std.specs.Prelude.{None, Some};

    ghost Value = { counts.Counts };

    ghost view = { λ c. elim c.held [ None ↦ counts.nothing_counted | Some h ↦ record { rule = h.value.rule.now; sums = h.value.sums } ] };
}

impl<'a> Counts<'a> {
    // Before any row. It takes no memory.
    pub fn nothing() -> Self
        ensures { result ≡ nothing_counted }
    {
        Counts { held: None }
    }

    // Takes out what was counted.
    fn take(&mut self, alloc: Global) -> Result<Box<Held<'a>>, AllocError>
        ensures { IfOk result (λ held. record { rule = held.value.rule.now; sums = held.value.sums } ≡ self.old) }
    {
        match self.held.take() {
            Some(held) => Ok(held),
            None => Ok(Box::new(
                alloc,
                Held {
                    rule: &[],
                    sums: Sums::nothing(alloc),
                },
            )?),
        }
    }

    // Counts what a `line` row says.
    pub fn line(&mut self, alloc: Global, outcome: &Outcome<'a>) -> Result<(), AllocError>
        ensures { OnOk result (self.new ≡ line_counted self.old (said outcome.now)) }
    {
        let mut held = self.take(alloc)?;
        let rule = rule_of(outcome);
        held.rule = rule;
        if let Some(code) = text_at(outcome, Label::Code) {
            held.sums.count(alloc, Object::of(rule, code), 1)?;
        }
        self.held = Some(held);
        Ok(())
    }

    // Counts what a `part` row says.
    pub fn part(&mut self, alloc: Global, code: &'a [u8], count: u64) -> Result<(), AllocError>
        ensures { OnOk result (self.new ≡ part_counted self.old code.now count) }
    {
        let mut held = self.take(alloc)?;
        let object = Object::of(held.rule, code);
        held.sums.count(alloc, object, count)?;
        self.held = Some(held);
        Ok(())
    }

    // Whether the object at this index is this one, and there are `count` of it.
    pub fn has(&self, index: usize, rule: &'a [u8], code: &'a [u8], count: u64) -> bool
        ensures value { result ≡ is_counted (slice_get self.now.sums index) (object rule.now code.now) count }
        ensures within { IsTrue result → index + 1 < 2 ^ 64 }
    {
        match &self.held {
            Some(held) => held.sums.has(index, Object::of(rule, code), count),
            None => false,
        }
    }

    // How many objects were counted.
    pub fn len(&self) -> usize
        ensures { result ≡ length self.now.sums }
    {
        match &self.held {
            Some(held) => held.sums.len(),
            None => 0,
        }
    }
}
