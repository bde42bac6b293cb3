//! The lines of a report.
ghost use Rattle.std.specs.Prelude.{◌≡◌, ◌≤◌, ◌++◌, ℕ, [], ◌∷◌, List, length, OnOk, decimal};
ghost use Rattle.life_cells.specs.Rules.{rule_text};
ghost use Rattle.census_bundle.specs.Sizes.{IsWithinCounts};
ghost use Rattle.census_format.specs.Heads.{line_with_head, line_head};
ghost use Rattle.census_format.specs.Found.{outcome_of};
ghost use Rattle.census_format.specs.Lines.{end_line, open_line, pattern_count};
ghost use Rattle.census_rows.specs.Lines.{fields_text, outcome_fields, text_of};

use crate::found::finding_of;
use census_bundle::{Bundle, Entry, Folder, Ticket};
use census_rows::{push_count, push_field, push_finding};
use life_answer::Answer;
use life_cells::Rule;
use std::alloc::AllocError;

/// Appends a space and a rule.
pub fn push_rule(text: &mut Vec<u8>, rule: &Rule) -> Result<(), AllocError>
    ensures { OnOk result (text.new.items ≡ text.old.items ++ 32 ∷ rule_text rule.now) }
{
    text.push(b' ')?;
    rule.text_into(text)
}

/// Appends the line that opens a section.
#[tactic(auto, unfolding(crate::specs::Lines::open_line))]
pub fn push_open(text: &mut Vec<u8>, c: u32, folder: &Folder) -> Result<(), AllocError>
    ensures { OnOk result (text.new.items ≡ text.old.items ++ text_of (open_line c folder.now)) }
{
    text.extend_from_slice(b"open")?;
    push_count(text, u64::from(c))?;
    push_count(text, folder.entries.as_slice().len() as u64)?;
    push_field(text, folder.name.as_slice())?;
    text.push(b'\n')?;
    Ok(())
}

// Appends the fields of the answer for a pattern.
fn push_outcome(text: &mut Vec<u8>, answer: &Answer) -> Result<(), AllocError>
    ensures { OnOk result
        (text.new.items ≡
        text.old.items ++ fields_text (outcome_fields (outcome_of answer.now))) }
{
    match answer {
        Answer::Found { rule, finding } => {
            let found = finding_of(&finding.outcome);
            push_field(text, found.word())?;
            push_rule(text, rule)?;
            push_count(text, finding.population)?;
            push_finding(text, &found)
        }
        Answer::Refused(number) => {
            push_field(text, b"bad")?;
            push_count(text, u64::from(*number))
        }
    }
}

/// Appends the line of a pattern with this answer, up to its name.
#[tactic(auto, unfolding(crate::specs::Heads::line_head))]
pub fn push_head(text: &mut Vec<u8>, ticket: Ticket, answer: &Answer) -> Result<(), AllocError>
    ensures { OnOk result
        (text.new.items ≡ text.old.items ++ line_head ticket answer.now) }
{
    text.extend_from_slice(b"line")?;
    push_count(text, u64::from(ticket.folder))?;
    push_count(text, u64::from(ticket.number))?;
    push_outcome(text, answer)
}

/// Appends the lines of a pattern, which begin with this head and end with this tail.
pub fn push_pattern(
    text: &mut Vec<u8>,
    head: &[u8],
    tail: &[u8],
    entry: &Entry,
) -> Result<(), AllocError>
    ensures { OnOk result
        (text.new.items ≡ text.old.items ++ line_with_head head.now entry.now tail.now) }
{
    text.extend_from_slice(head)?;
    push_field(text, entry.name.as_slice())?;
    text.push(b'\n')?;
    if !tail.is_empty() {
        text.extend_from_slice(tail)?;
    }
    Ok(())
}

// The number of patterns.
fn count_patterns(folders: &[Folder]) -> u64
    requires { IsWithinCounts folders.now }
    ensures { result ≡ pattern_count folders.now }
{
    let mut count = 0u64;
    for folder in folders {
        count += folder.entries.as_slice().len() as u64;
    }
    count
}

/// Appends the last line of a report.
#[tactic(auto, unfolding(crate::specs::Lines::end_line))]
pub fn push_end(text: &mut Vec<u8>, folders: &[Folder]) -> Result<(), AllocError>
    requires { IsWithinCounts folders.now }
    ensures { OnOk result (text.new.items ≡ text.old.items ++ text_of (end_line folders.now)) }
{
    text.extend_from_slice(b"end")?;
    push_count(text, folders.len() as u64)?;
    push_count(text, count_patterns(folders))?;
    text.push(b'\n')?;
    Ok(())
}
