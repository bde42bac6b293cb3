//! The lines after that of a pattern.
ghost use Rattle.std.specs.Prelude.{◌≡◌, ◌++◌, OnOk};
ghost use Rattle.census_format.specs.Heads.{line_tail};

use crate::engines::push_engines;
use crate::parts::push_parts;
use census_bundle::Ticket;
use life_answer::{Answer, Outcome};
use std::alloc::AllocError;

/// Appends the lines after that of a pattern with this answer: the `part` lines of one that has fallen apart, and the
/// `engine` and `emits` lines of one that grows.
#[tactic(auto, unfolding(crate::specs::Heads::line_tail))]
pub fn push_tail(text: &mut Vec<u8>, ticket: Ticket, answer: &Answer) -> Result<(), AllocError>
    ensures { OnOk result
        (text.new.items ≡ text.old.items ++ line_tail ticket answer.now) }
{
    match answer {
        Answer::Found { finding, .. } => match &finding.outcome {
            Outcome::Ash { parts, .. } => push_parts(text, ticket, parts.as_slice()),
            Outcome::Grows { engines } => push_engines(text, ticket, engines.as_slice()),
            _ => Ok(()),
        },
        Answer::Refused(_) => Ok(()),
    }
}
