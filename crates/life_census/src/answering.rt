//! The answer to a text.
ghost use Rattle.std.specs.Prelude.{◌≡◌, ◌≤◌, IfOk, IsOk, OnErr};
ghost use Rattle.life_answer.specs.declared.question.Question.TheVariants.{Objects};
ghost use Rattle.life_answer.specs.Questions.{answer_to_question};
ghost use Rattle.life_text.specs.Rle.{header_rule};

use crate::pattern::census;
use life_answer::{Answer, refused};
use life_board::Board;
use life_orbit::BOUND_LIMIT;
use life_plane::{Observer, Plane};
use life_text::read_rle;
use life_things::WAY_LIMIT;
use std::alloc::{AllocError, Global};

/// The answer to an RLE text, as `answer` gives it, over planes of one kind.
fn answer_on<P: Plane, W: Observer>(
    alloc: Global,
    observer: &W,
    text: &[u8],
    bound: u32,
    limit: Option<u32>,
    near: bool,
    horizon: u32,
) -> Result<Answer, AllocError>
    requires bound { 1 ≤ bound × bound ≤ BOUND_LIMIT }
    requires horizon { 1 ≤ horizon × horizon ≤ WAY_LIMIT }
    ensures answer { IfOk result
        (λ answer. answer ≡ answer_to_question (Objects bound limit near horizon) text.now) }
    ensures memory { OnErr result (IsOk (header_rule text.now)) }
{
    match read_rle(alloc, text) {
        Ok(pattern) => {
            let rule = pattern.rule();
            let finding = census::<P, W>(
                alloc,
                observer,
                &rule,
                pattern.cells(),
                bound,
                limit,
                near,
                horizon,
            )?;
            Ok(Answer::Found { rule, finding })
        }
        Err(fault) => refused(fault),
    }
}

/// The answer to an RLE text within the bound: the rule and a finding, or the number of the text's fault. The finding is how
/// the pattern recurs, if it falls apart into one object; the objects' counts by codes, if it falls apart into none or several;
/// or the engines by which it grows within the horizon. The bound is 1 to 100,000 generations, and the horizon 1 to 10,000.
/// With a limit, no generation from 0 to three times the bound may have more cells. With `near`, cells that are near one
/// another count as one object; otherwise the independent parts of each object count.
///
/// Generations past the bound may be looked at, up to four times the bound. Those on the way, up to three times the bound, are
/// reported to an observer.
pub fn answer<W: Observer>(
    alloc: Global,
    observer: &W,
    text: &[u8],
    bound: u32,
    limit: Option<u32>,
    near: bool,
    horizon: u32,
) -> Result<Answer, AllocError>
    requires bound { 1 ≤ bound × bound ≤ BOUND_LIMIT }
    requires horizon { 1 ≤ horizon × horizon ≤ WAY_LIMIT }
    ensures answer { IfOk result
        (λ answer. answer ≡ answer_to_question (Objects bound limit near horizon) text.now) }
    ensures memory { OnErr result (IsOk (header_rule text.now)) }
{
    answer_on::<Board, W>(alloc, observer, text, bound, limit, near, horizon)
}
