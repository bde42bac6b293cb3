//! The answer to a text, if the first generations of its pattern decide it.
ghost use Rattle.std.specs.Prelude.{◌≡◌, ◌<◌, ◌≤◌, true, IfNone, IfOk, IfSome};
ghost use Rattle.life_answer.specs.declared.question.Question.TheVariants.{Settles};
ghost use Rattle.life_answer.specs.Questions.{answer_to_question};
ghost use Rattle.life_find.specs.Soon.{is_open, soon_reach};

use crate::answering::answer;
use crate::limit::BOUND_LIMIT;
use life_answer::{Answer, Outcome};
use life_plane::Unobserved;
use std::alloc::{AllocError, Global};

/// The greatest bound within which no generation past 256 is examined, as a search goes up to twice its bound.
const SOON_REACH: u32 = 128;

/// True where more generations may decide what these did not.
fn is_open(answer: &Answer) -> bool
    ensures { result ≡ is_open answer.now }
{
    match answer {
        Answer::Found { finding, .. } => match finding.outcome {
            Outcome::Unresolved => true,
            _ => false,
        },
        Answer::Refused(_) => false,
    }
}

/// The answer to an RLE text within the bound, if the first 256 generations of its pattern decide it, or there is no pattern. No
/// later generation is examined. The bound is 1 to 1,000,000 generations, and the limit is that of `answer`. `None` means that
/// the bound is greater than 128, and that nothing is found within 128 generations.
pub fn answer_soon(
    alloc: Global,
    text: &[u8],
    bound: u32,
    limit: Option<u32>,
) -> Result<Option<Answer>, AllocError>
    requires { 1 ≤ bound × bound ≤ BOUND_LIMIT }
    ensures known { IfOk result
        (λ soon. IfSome soon (λ found. found ≡ answer_to_question (Settles bound limit) text.now)) }
    ensures open { IfOk result (λ soon. IfNone soon (
        soon_reach < bound ×
        is_open (answer_to_question (Settles soon_reach limit) text.now) ≡ true)) }
{
    let reach = bound.min(SOON_REACH);
    let found = answer(alloc, &Unobserved, text, reach, limit)?;
    if reach < bound && is_open(&found) {
        return Ok(None);
    }
    Ok(Some(found))
}
