//! The facts known about a pattern.
ghost use Rattle.std.specs.Prelude.{◌≡◌, ◌≤◌, IfOk, Ok, Some};
ghost use Rattle.life_text.specs.Picture.{picture_of};
ghost use Rattle.life_text.specs.Rle.{reading};
ghost use Rattle.life_answer.specs.Questions.{outcome_to};
ghost use Rattle.life_answer.specs.declared.question.Question.TheVariants.{Objects};
ghost use Rattle.census_identify.specs.Blocks.Known.{known_of, whole_of};

use crate::blocks::inquiry::{HORIZON_LIMIT, Inquiry};
use crate::blocks::periods::common_period;
use crate::blocks::whole::{Whole, whole_within};
use life_answer::{Answer, Outcome};
use life_board::Board;
use life_orbit::BOUND_LIMIT;
use life_plane::Observer;
use life_text::Pattern;
use std::alloc::{AllocError, Global};

/// The facts known about a pattern within the bound.
#[derive(Drop)]
pub struct Known {
    /// Its outcome.
    pub outcome: Outcome,
    /// Its period and displacement as a whole, where it becomes several parts that all have one velocity.
    pub whole: Option<Whole>,
}

// The outcome of the pattern that a text means.
fn outcome_of<W: Observer>(
    alloc: Global,
    observer: &W,
    text: &[u8],
    pattern: &Pattern,
    inquiry: Inquiry,
) -> Result<Outcome, AllocError>
    requires bound { 1 ≤ inquiry.bound × inquiry.bound ≤ BOUND_LIMIT }
    requires horizon { 1 ≤ inquiry.horizon × inquiry.horizon ≤ HORIZON_LIMIT }
    requires meant { picture_of (reading text.now) ≡ Ok pattern.now }
    ensures { IfOk result
        (λ outcome. outcome ≡ outcome_to
        (Objects inquiry.bound (Some inquiry.cells) inquiry.near inquiry.horizon)
        pattern.now.rule pattern.now.cells) }
{
    match life_census::answer(
        alloc,
        observer,
        text,
        inquiry.bound,
        Some(inquiry.cells),
        inquiry.near,
        inquiry.horizon,
    )? {
        Answer::Found { finding, .. } => Ok(finding.outcome),
        Answer::Refused(_) => Ok(Outcome::Unresolved),
    }
}

// The period and the displacement of a pattern as a whole, by its outcome. No generation is examined where its parts, by their
// codes, can't have one velocity, or recur together only after the bound.
fn whole_of(
    alloc: Global,
    pattern: &Pattern,
    inquiry: Inquiry,
    outcome: &Outcome,
) -> Result<Option<Whole>, AllocError>
    requires bound { 1 ≤ inquiry.bound × inquiry.bound ≤ BOUND_LIMIT }
    requires outcome { outcome.now ≡ outcome_to
        (Objects inquiry.bound (Some inquiry.cells) inquiry.near inquiry.horizon)
        pattern.now.rule pattern.now.cells }
    ensures { IfOk result (λ whole. whole ≡ whole_of inquiry.bound pattern.now outcome.now) }
{
    let Outcome::Ash { onset, parts } = outcome else {
        return Ok(None);
    };
    let Some(most) = common_period(parts.as_slice(), inquiry.bound) else {
        return Ok(None);
    };
    let whole = whole_within::<Board>(alloc, &pattern.rule(), pattern.cells(), *onset, most)?;
    Ok(whole)
}

/// The facts known within the bound about the pattern that a text means: where it becomes one part, its onset, motion and code;
/// where it falls apart into several, the onset and the parts, and, where these all have one velocity, its period and
/// displacement as a whole; else, where it grows within the horizon, its engines; else, where some generation up to three times
/// the bound has more cells than the limit, the first such generation; else that none of these is found. The bound is 1 to
/// 100,000 generations, and the horizon 1 to 10,000.
///
/// It is found to fall apart only where no generation up to three times the bound is too large, and to grow only where none is
/// too large up to four times the generation that shows it.
///
/// Generations past the bound may be examined, up to four times the bound. Those on the way, up to three times the bound, are
/// reported to an observer.
pub fn known_of<W: Observer>(
    alloc: Global,
    observer: &W,
    text: &[u8],
    pattern: &Pattern,
    inquiry: Inquiry,
) -> Result<Known, AllocError>
    requires bound { 1 ≤ inquiry.bound × inquiry.bound ≤ BOUND_LIMIT }
    requires horizon { 1 ≤ inquiry.horizon × inquiry.horizon ≤ HORIZON_LIMIT }
    requires meant { picture_of (reading text.now) ≡ Ok pattern.now }
    ensures { IfOk result (λ known. known ≡ known_of inquiry pattern.now) }
{
    let outcome = outcome_of(alloc, observer, text, pattern, inquiry)?;
    let whole = whole_of(alloc, pattern, inquiry, &outcome)?;
    Ok(Known { outcome, whole })
}
