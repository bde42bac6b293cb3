//! The answer to a text.
ghost use Rattle.std.specs.Prelude.{◌≡◌, ◌≤◌, IfOk, IsOk, OnErr};
ghost use Rattle.life_answer.specs.declared.question.Question.TheVariants.{Settles};
ghost use Rattle.life_answer.specs.Questions.{answer_to_question};
ghost use Rattle.life_text.specs.Rle.{header_rule};

use crate::finding::find_limited;
use crate::limit::BOUND_LIMIT;
use life_answer::{Answer, refused};
use life_board::Board;
use life_plane::{Observer, Plane};
use life_text::read_rle;
use std::alloc::{AllocError, Global};

/// The answer to an RLE text within the bound, over planes of one kind.
fn answer_on<P: Plane, W: Observer>(
    alloc: Global,
    observer: &W,
    text: &[u8],
    bound: u32,
    limit: Option<u32>,
) -> Result<Answer, AllocError>
    requires { 1 ≤ bound × bound ≤ BOUND_LIMIT }
    ensures answer { IfOk result
        (λ answer. answer ≡ answer_to_question (Settles bound limit) text.now) }
    ensures memory { OnErr result (IsOk (header_rule text.now)) }
{
    match read_rle(alloc, text) {
        Ok(pattern) => {
            let finding = find_limited::<P, W>(alloc, observer, &pattern, bound, limit)?;
            Ok(Answer::Found {
                rule: pattern.rule(),
                finding,
            })
        }
        Err(fault) => refused(fault),
    }
}

/// The answer to an RLE text within the bound: the rule and the finding of the pattern that it means, or the number of its
/// fault. With a limit no generation from 0 to the bound may have more cells.
///
/// It may examine generations past the bound, up to twice the bound. Those that are examined are reported to an observer.
pub fn answer<W: Observer>(
    alloc: Global,
    observer: &W,
    text: &[u8],
    bound: u32,
    limit: Option<u32>,
) -> Result<Answer, AllocError>
    requires { 1 ≤ bound × bound ≤ BOUND_LIMIT }
    ensures answer { IfOk result
        (λ answer. answer ≡ answer_to_question (Settles bound limit) text.now) }
    ensures memory { OnErr result (IsOk (header_rule text.now)) }
{
    answer_on::<Board, W>(alloc, observer, text, bound, limit)
}
