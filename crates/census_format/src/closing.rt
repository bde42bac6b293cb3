//! The lines that end a section.
ghost use Rattle.std.specs.Prelude.{◌≡◌, ◌<◌, ◌++◌, ◌^◌, [], ◌∷◌, List, length, map, replicate, OnOk, IfOk, count_by};
ghost use Rattle.life_answer.specs.declared.finding.Answer as found;
ghost use Rattle.life_answer.specs.Parts.{objects_in};
ghost use Rattle.census_format.specs.Found.{is_of};
ghost use Rattle.census_format.specs.Lines.{answers, close_line, groups_text};
ghost use Rattle.census_format.specs.Objects as codes;
ghost use Rattle.census_format.specs.Objects.{code_line, object, objects, part_objects, same_object, tally};
ghost use Rattle.census_format.specs.Reports.{closing};
ghost use Rattle.census_format.specs.Tallying.{HasTally};
ghost use Rattle.census_rows.specs.Lines.{text_of};

use crate::found::is_of;
use crate::lines::push_rule;
use census_bundle::Folder;
use census_rows::{Class, push_count, push_field};
use indexmap::IndexMap;
use life_answer::{Answer, Outcome, Part, Question};
use life_cells::Rule;
use std::alloc::{AllocError, Global};
use std::hash::{Hash, Hasher};
use std::marker::Model;

/// A rule, and the code of an object under it.
#[derive(Drop)]
pub struct Object<'a> {
    rule: Rule,
    code: &'a [u8],
}

impl<'a> Model for Object<'a> {
    ghost use Rattle.census_format.specs.Objects as objects;
    ghost use Rattle.census_format.specs.ObjectCode.{object_code};

    ghost Value = { objects.Object };

    ghost coded = { object_code };

    ghost view = { λ o. record { rule = o.rule; code = o.code.now } };
}

impl<'a> PartialEq for Object<'a> {
    ghost use Rattle.census_format.specs.Objects.{same_object};
    ghost use Rattle.census_format.specs.ObjectLaws.{same_object_partial};

    ghost eq = { same_object };

    ghost laws = { same_object_partial };

    fn eq(&self, other: &Object<'a>) -> bool {
        self.rule == other.rule && self.code == other.code
    }
}

impl<'a> Eq for Object<'a> {
    ghost use Rattle.census_format.specs.ObjectLaws.{same_object_equivalence};

    ghost laws = { same_object_equivalence };
}

impl<'a> Hash for Object<'a> {
    ghost use Rattle.census_format.specs.ObjectLaws.{fed_object, same_object_fed};

    ghost hash_input = { fed_object };

    ghost respects_eq = { same_object_fed };

    fn hash<H: Hasher>(&self, state: &mut H) {
        self.rule.hash(state);
        self.code.hash(state);
    }
}

impl<'a> Object<'a> {
    ghost use Rattle.std.specs.Prelude.{◌≡◌};
    ghost use Rattle.census_format.specs.Objects.{object};

    fn of(rule: Rule, code: &'a [u8]) -> Object<'a>
        ensures { result ≡ object rule code.now }
    {
        Object { rule, code }
    }
}

// Counts an object `count` more times.
fn count_object<'a>(
    counts: &mut IndexMap<Object<'a>, u64>,
    object: Object<'a>,
    count: u64,
) -> Result<(), AllocError>
    requires tally { HasTally counts.old.entries (2 ^ 63) }
    requires few { count < 2 ^ 32 }
    ensures { (ks : List codes.Object) → counts.old.entries ≡ tally same_object ks →
        OnOk result (counts.new.entries ≡ tally same_object (ks ++ replicate count object.entry)) }
{
    if count == 0 {
        return Ok(());
    }
    *counts.entry(object)?.or_insert(0) += count;
    Ok(())
}

// Counts the objects of a pattern that has fallen apart.
fn count_parts<'a>(
    counts: &mut IndexMap<Object<'a>, u64>,
    rule: &Rule,
    parts: &'a [Part],
) -> Result<(), AllocError>
    requires tally { HasTally counts.old.entries (2 ^ 62) }
    requires few { objects_in parts.now < 2 ^ 32 }
    ensures { (ks : List codes.Object) → counts.old.entries ≡ tally same_object ks →
        OnOk result
        (counts.new.entries ≡ tally same_object (ks ++ part_objects rule.now parts.now)) }
{
    for part in parts {
        count_object(counts, Object::of(*rule, part.code.as_slice()), part.count)?;
    }
    Ok(())
}

// Counts the objects of an answer, if any.
fn count_answer<'a>(
    counts: &mut IndexMap<Object<'a>, u64>,
    answer: &'a Answer,
) -> Result<(), AllocError>
    requires { HasTally counts.old.entries (2 ^ 62) }
    ensures counts { (before : List found.Answer) →
        counts.old.entries ≡ tally same_object (objects before) →
        OnOk result (counts.new.entries ≡ tally same_object (objects (before ++ answer.now ∷ []))) }
    ensures few { OnOk result (length (objects (answer.now ∷ [])) < 2 ^ 32) }
{
    match answer {
        Answer::Found { rule, finding } => match &finding.outcome {
            Outcome::Recurs { code, .. } => count_object(
                counts,
                Object::of(*rule, code.as_slice()),
                1,
            ),
            Outcome::Ash { parts, .. } => count_parts(counts, rule, parts.as_slice()),
            _ => Ok(()),
        },
        Answer::Refused(_) => Ok(()),
    }
}

// The objects of the answers, in the order of first appearance, with their counts.
fn tally_of<'a>(
    alloc: Global,
    answers: &[&'a Answer],
) -> Result<IndexMap<Object<'a>, u64>, AllocError>
    requires { length answers.now < 2 ^ 30 }
    ensures { IfOk result
        (λ m. m.entries ≡ tally same_object (objects (map (λ a. a.now) answers.now))) }
{
    let mut counts = IndexMap::new(alloc);
    for answer in answers {
        count_answer(&mut counts, *answer)?;
    }
    Ok(counts)
}

#[tactic(auto, unfolding(crate::specs::Objects::code_line))]
fn push_code(text: &mut Vec<u8>, c: u32, object: &Object, count: u64) -> Result<(), AllocError>
    ensures { OnOk result (text.new.items ≡ text.old.items ++ text_of (code_line c object.now count)) }
{
    text.extend_from_slice(b"code")?;
    push_count(text, u64::from(c))?;
    push_rule(text, &object.rule)?;
    push_field(text, object.code)?;
    push_count(text, count)?;
    text.push(b'\n')?;
    Ok(())
}

// Appends the lines of the objects.
fn push_codes(text: &mut Vec<u8>, c: u32, counts: &IndexMap<Object, u64>) -> Result<(), AllocError>
    ensures { OnOk result
        (text.new.items ≡
        text.old.items ++ groups_text (map (λ e. code_line c e.0 e.1) counts.now.entries)) }
{
    for (object, count) in counts.iter() {
        push_code(text, c, object, *count)?;
    }
    Ok(())
}

// The number of these answers that are of this class.
fn count_of(answers: &[&Answer], class: Class) -> usize
    ensures { result ≡ count_by (is_of class) (map (λ a. a.now) answers.now) }
{
    answers
        .iter()
        .filter(|answer| is_of(class, **answer))
        .count()
}

// Appends the line that closes a section.
#[tactic(auto, unfolding(crate::specs::Lines::close_line))]
fn push_close(
    text: &mut Vec<u8>,
    question: Question,
    c: u32,
    folder: &Folder,
    found: &[&Answer],
) -> Result<(), AllocError>
    requires { map (λ a. a.now) found.now ≡ answers question folder.now.entries }
    ensures { OnOk result (text.new.items ≡ text.old.items ++ text_of (close_line question c folder.now)) }
{
    text.extend_from_slice(b"close")?;
    push_count(text, u64::from(c))?;
    push_count(text, folder.entries.as_slice().len() as u64)?;
    push_count(text, count_of(found, Class::Resolved) as u64)?;
    push_count(text, count_of(found, Class::Unresolved) as u64)?;
    push_count(text, count_of(found, Class::Refused) as u64)?;
    text.push(b'\n')?;
    Ok(())
}

// Appends the `code` lines of these answers.
fn push_objects(
    alloc: Global,
    text: &mut Vec<u8>,
    c: u32,
    found: &[&Answer],
) -> Result<(), AllocError>
    requires { length found.now < 2 ^ 30 }
    ensures { OnOk result
        (text.new.items ≡
        text.old.items ++
        groups_text (map (λ e. code_line c e.0 e.1)
        (tally same_object (objects (map (λ a. a.now) found.now))))) }
{
    let counts = tally_of(alloc, found)?;
    push_codes(text, c, &counts)
}

/// Appends the lines that end the section of a collection whose patterns have these answers.
pub fn push_closing(
    alloc: Global,
    text: &mut Vec<u8>,
    question: Question,
    c: u32,
    folder: &Folder,
    found: &[&Answer],
) -> Result<(), AllocError>
    requires few { length found.now < 2 ^ 30 }
    requires found { map (λ a. a.now) found.now ≡ answers question folder.now.entries }
    ensures { OnOk result
        (text.new.items ≡ text.old.items ++ groups_text (closing question c folder.now)) }
{
    push_objects(alloc, text, c, found)?;
    push_close(text, question, c, folder, found)?;
    Ok(())
}
