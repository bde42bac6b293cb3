//! The answer to an entry, and the work of a ticket.
ghost use Rattle.std.specs.Prelude.{◌≡◌, false, IfNone, IfOk, IfSome, OnErr};
ghost use Rattle.life_answer.specs.Questions.{IsAnswered};
ghost use Rattle.census_format.specs.Lines.{answer_to_entry};
ghost use Rattle.census_crew.specs.Answering.{IsLongWork, TakesMemory};

use census_book::Done;
use census_bundle::{Entry, Ticket};
use life_answer::{Answer, Question};
use life_find::answer_soon;
use life_plane::{Observer, Unobserved};
use std::alloc::{AllocError, Global};

// The answer to an entry, whatever the question.
#[tactic(auto, unfolding(census_format::specs::Lines::answer_to_entry))]
fn find<W: Observer>(
    alloc: Global,
    observer: &W,
    entry: &Entry,
    question: Question,
) -> Result<Answer, AllocError>
    requires { IsAnswered question }
    ensures found { IfOk result (λ found. found ≡ answer_to_entry question entry.now) }
    ensures memory { OnErr result (TakesMemory entry.now) }
{
    if entry.is_lost {
        return Ok(Answer::Refused(0));
    }
    let text = entry.text.as_slice();
    match question {
        Question::Settles { bound, cells } => {
            life_find::answer(alloc, observer, text, bound, cells)
        }
        Question::Objects {
            bound,
            cells,
            near,
            horizon,
        } => life_census::answer(alloc, observer, text, bound, cells, near, horizon),
    }
}

// The answer to an entry, if the first 256 generations of its pattern are enough and objects are not asked for, or if its
// text is lost.
#[tactic(auto, unfolding(census_format::specs::Lines::answer_to_entry))]
fn find_soon(alloc: Global, entry: &Entry, question: Question) -> Result<Option<Answer>, AllocError>
    requires { IsAnswered question }
    ensures known { IfOk result
        (λ soon. IfSome soon (λ found. found ≡ answer_to_entry question entry.now)) }
    ensures long { IfOk result (λ soon. IfNone soon (IsLongWork question entry.now)) }
    ensures memory { OnErr result (entry.now.is_lost ≡ false) }
{
    match (entry.is_lost, question) {
        (true, _) => Ok(Some(Answer::Refused(0))),
        (false, Question::Settles { bound, cells }) => {
            answer_soon(alloc, entry.text.as_slice(), bound, cells)
        }
        (false, Question::Objects { .. }) => Ok(None),
    }
}

/// Works a ticket: answers the question for the entry's text. If that is lost, no work is done, and it is refused with the
/// number 0. A bound is 1 to 1,000,000 generations; if objects are asked for, it is 1 to 100,000, and the horizon is 1 to
/// 10,000. Memory is taken only for a text that has a header.
pub fn work<'a>(
    alloc: Global,
    ticket: Ticket,
    entry: &'a Entry,
    question: Question,
) -> Result<Done<'a>, AllocError>
    requires { IsAnswered question }
    ensures ticket { IfOk result (λ d. d.ticket ≡ ticket) }
    ensures entry { IfOk result (λ d. d.entry ≡ entry.now) }
    ensures question { IfOk result (λ d. d.question ≡ question) }
    ensures memory { OnErr result (TakesMemory entry.now) }
{
    work_observed(alloc, &Unobserved, ticket, entry, question)
}

/// Does what `work` does, and reports the generations of the pattern to an observer as they are reached.
pub(crate) fn work_observed<'a, W: Observer>(
    alloc: Global,
    observer: &W,
    ticket: Ticket,
    entry: &'a Entry,
    question: Question,
) -> Result<Done<'a>, AllocError>
    requires { IsAnswered question }
    ensures ticket { IfOk result (λ d. d.ticket ≡ ticket) }
    ensures entry { IfOk result (λ d. d.entry ≡ entry.now) }
    ensures question { IfOk result (λ d. d.question ≡ question) }
    ensures memory { OnErr result (TakesMemory entry.now) }
{
    let answer = find(alloc, observer, entry, question)?;
    Done::of(alloc, ticket, entry, question, answer)
}

/// Does what `work` does if that is quick: the entry's text is lost or no pattern, or the question is which generation
/// recurs and the first 256 generations answer it. No later one is looked at. `None` says that it isn't quick. No memory is
/// taken if the text is lost.
pub fn work_soon<'a>(
    alloc: Global,
    ticket: Ticket,
    entry: &'a Entry,
    question: Question,
) -> Result<Option<Done<'a>>, AllocError>
    requires { IsAnswered question }
    ensures ticket { IfOk result (λ soon. IfSome soon (λ d. d.ticket ≡ ticket)) }
    ensures entry { IfOk result (λ soon. IfSome soon (λ d. d.entry ≡ entry.now)) }
    ensures question { IfOk result (λ soon. IfSome soon (λ d. d.question ≡ question)) }
    ensures long { IfOk result (λ soon. IfNone soon (IsLongWork question entry.now)) }
    ensures memory { OnErr result (entry.now.is_lost ≡ false) }
{
    match find_soon(alloc, entry, question)? {
        Some(answer) => Ok(Some(Done::of(alloc, ticket, entry, question, answer)?)),
        None => Ok(None),
    }
}
