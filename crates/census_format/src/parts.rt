//! The objects of a pattern that has fallen apart, and its `part` lines.
ghost use Rattle.std.specs.Prelude.{◌≡◌, ◌++◌, OnOk, map};
ghost use Rattle.census_format.specs.Lines.{part_row};
ghost use Rattle.census_rows.specs.Lines.{line_of, text_of};

use census_bundle::Ticket;
use census_rows::{push_count, push_field};
use life_answer::Part;
use std::alloc::AllocError;

// Appends the line of those parts that are one object.
fn push_part(text: &mut Vec<u8>, ticket: Ticket, part: &Part) -> Result<(), AllocError>
    ensures { OnOk result
        (text.new.items ≡ text.old.items ++ line_of (part_row ticket.folder ticket.number part.now)) }
{
    text.extend_from_slice(b"part")?;
    push_count(text, u64::from(ticket.folder))?;
    push_count(text, u64::from(ticket.number))?;
    push_field(text, part.code.as_slice())?;
    push_count(text, part.count)?;
    text.push(b'\n')?;
    Ok(())
}

/// Appends the lines of all parts.
pub(crate) fn push_parts(
    text: &mut Vec<u8>,
    ticket: Ticket,
    parts: &[Part],
) -> Result<(), AllocError>
    ensures { OnOk result
        (text.new.items ≡
        text.old.items ++ text_of (map (part_row ticket.folder ticket.number) parts.now)) }
{
    for part in parts {
        push_part(text, ticket, part)?;
    }
    Ok(())
}
