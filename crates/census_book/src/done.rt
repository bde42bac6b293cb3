//! Patterns that were worked.
ghost use Rattle.std.specs.Prelude.{◌≡◌, ◌++◌, ℕ, IfOk, IfSome, OnErr, OnOk};
ghost use Rattle.life_answer.specs.declared.finding.Answer.TheVariants.{Refused};
ghost use Rattle.census_format.specs.Lines.{answer_to_entry};
ghost use Rattle.census_format.specs.Heads.{line_with_head, line_head, line_tail};

use census_bundle::{Entry, Text, Ticket};
use census_format::{push_head, push_pattern, push_tail};
use life_answer::{Answer, Question};
use std::alloc::{AllocError, Global};
use std::marker::Model;

/// The number of bytes that a line's head gets room for at first. Most heads fit.
const HEAD_LEN: usize = 64;

/// The greatest number of bytes of a line's head that is made where the pattern is worked.
const LONGEST_HEAD: usize = 4096;

/// The work of one ticket: the ticket, the entry that was worked, the question, and the answer, which is the one that the
/// definition gives for the question and the entry. The report's lines of the pattern, except for the name, are made here, and
/// so alongside other work if one thread collects the results. Those of a pattern that is refused are made where they are
/// written, so that it takes no memory here.
#[derive(Drop)]
pub struct Done<'a> {
    ticket: Ticket,
    entry: &'a Entry,
    question: Question,
    answer: Answer,
    head: Option<Text>,
    tail: Vec<u8>,
}

impl<'a> Model for Done<'a> {
    ghost use Rattle.std.specs.Prelude.{◌≡◌, IfSome};
    ghost use Rattle.census_format.specs.Heads.{line_head, line_tail};
    ghost use Rattle.census_format.specs.Lines.{answer_to_entry};
    ghost use Rattle.census_book.specs.Work.{Work, work_code};

    ghost Value = { Work };

    ghost coded = { work_code };

    ghost view = { λ d. record { ticket = d.ticket; entry = d.entry.now; question = d.question } };

    ghost invariant = { λ d. (d.answer ≡ answer_to_entry d.question d.entry.now)
        × IfSome d.head (λ head. head ≡ line_head d.ticket d.answer)
        × (d.tail.items ≡ line_tail d.ticket d.answer) };
}

// The line of a pattern with this answer, up to its name. None if it is refused, or has more than `LONGEST_HEAD` bytes, which
// would be held in addition to its own code.
fn head_of(alloc: Global, ticket: Ticket, answer: &Answer) -> Result<Option<Text>, AllocError>
    ensures head { IfOk result
        (λ made. IfSome made (λ head. head ≡ line_head ticket answer.now)) }
    ensures memory { OnErr result ((number : ℕ) → answer.now ≡ Refused number → ⊥) }
{
    match answer {
        Answer::Found { .. } => {
            let mut head = Vec::with_capacity(alloc, HEAD_LEN)?;
            push_head(&mut head, ticket, answer)?;
            if head.len() > LONGEST_HEAD {
                return Ok(None);
            }
            Ok(Some(Text::of(alloc, &head)?))
        }
        Answer::Refused(_) => Ok(None),
    }
}

// The lines after that of a pattern with this answer.
#[tactic(auto, unfolding(census_format::specs::Heads::line_tail))]
fn tail_of(alloc: Global, ticket: Ticket, answer: &Answer) -> Result<Vec<u8>, AllocError>
    ensures tail { IfOk result
        (λ tail. tail.items ≡ line_tail ticket answer.now) }
    ensures memory { OnErr result ((number : ℕ) → answer.now ≡ Refused number → ⊥) }
{
    let mut tail = Vec::new(alloc);
    match answer {
        Answer::Found { .. } => push_tail(&mut tail, ticket, answer)?,
        Answer::Refused(_) => {}
    }
    Ok(tail)
}

impl<'a> Done<'a> {
    /// The work of a ticket with this answer to its entry. Memory is taken only for a pattern that is not refused.
    pub fn of(
        alloc: Global,
        ticket: Ticket,
        entry: &'a Entry,
        question: Question,
        answer: Answer,
    ) -> Result<Done<'a>, AllocError>
        requires { answer ≡ answer_to_entry question entry.now }
        ensures ticket { IfOk result (λ d. d.ticket ≡ ticket) }
        ensures entry { IfOk result (λ d. d.entry ≡ entry.now) }
        ensures question { IfOk result (λ d. d.question ≡ question) }
        ensures memory { OnErr result ((number : ℕ) → answer ≡ Refused number → ⊥) }
    {
        let head = head_of(alloc, ticket, &answer)?;
        let tail = tail_of(alloc, ticket, &answer)?;
        Ok(Done {
            ticket,
            entry,
            question,
            answer,
            head,
            tail,
        })
    }

    /// The ticket that was worked.
    pub fn ticket(&self) -> Ticket
        ensures { result ≡ self.now.ticket }
    {
        self.ticket
    }

    /// The entry that was worked.
    pub fn entry(&self) -> &'a Entry
        ensures { result.now ≡ self.now.entry }
    {
        self.entry
    }

    /// The question.
    pub fn question(&self) -> Question
        ensures { result ≡ self.now.question }
    {
        self.question
    }

    /// The answer: `Refused` of 0 if the entry is lost.
    pub fn answer(&self) -> &Answer
        ensures { result.now ≡ answer_to_entry self.now.question self.now.entry }
    {
        &self.answer
    }

    // Appends the lines of the pattern, under the name of this entry.
    pub(crate) fn push_lines(&self, text: &mut Vec<u8>, entry: &Entry) -> Result<(), AllocError>
        ensures { OnOk result (text.new.items ≡ text.old.items ++ line_with_head
            (line_head self.now.ticket (answer_to_entry self.now.question self.now.entry))
            entry.now
            (line_tail self.now.ticket (answer_to_entry self.now.question self.now.entry))) }
    {
        match self.head.as_ref() {
            Some(head) => push_pattern(text, head.as_slice(), self.tail.as_slice(), entry),
            None => {
                push_head(text, self.ticket, &self.answer)?;
                push_pattern(text, &[], self.tail.as_slice(), entry)
            }
        }
    }
}
