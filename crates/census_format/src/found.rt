//! The answer for a pattern, as the rows of a report have it.
ghost use Rattle.std.specs.Prelude.{◌≡◌};
ghost use Rattle.census_format.specs.Found.{class_of, finding_of, is_of};
ghost use Rattle.census_rows.specs.Kinds.{said_of, texts_of};

use census_rows::{Class, Finding};
use life_answer::{Answer, Outcome};

/// The outcome, as a row has it: one arm for each kind.
#[inline(always)]
pub(crate) fn finding_of<'a>(outcome: &'a Outcome) -> Finding<'a>
    ensures word { (said_of result).word ≡ (said_of (finding_of outcome.now)).word }
    ensures fields { texts_of (said_of result).fields
        ≡ texts_of (said_of (finding_of outcome.now)).fields }
    ensures class { (said_of result).class ≡ (said_of (finding_of outcome.now)).class }
{
    match outcome {
        Outcome::Recurs {
            onset,
            period,
            dx,
            dy,
            code,
        } => Finding::Ok {
            onset: u64::from(*onset),
            period: u64::from(*period),
            dx: i64::from(*dx),
            dy: i64::from(*dy),
            code: code.as_slice(),
        },
        Outcome::Ash { onset, parts } => Finding::Ash {
            onset: u64::from(*onset),
            objects: parts.count(),
        },
        Outcome::Unresolved => Finding::Unresolved,
        Outcome::Large { generation } => Finding::Large {
            generation: u64::from(*generation),
        },
        Outcome::Grows { engines } => Finding::Grows {
            engines: engines.count(),
        },
    }
}

/// The class of a pattern with this answer.
pub fn class_of(answer: &Answer) -> Class
    ensures { result ≡ class_of answer.now }
{
    match answer {
        Answer::Found { finding, .. } => finding_of(&finding.outcome).class(),
        Answer::Refused(_) => Class::Refused,
    }
}

/// True if the answer is of this class.
pub(crate) fn is_of(class: Class, answer: &Answer) -> bool
    ensures { result ≡ is_of class answer.now }
{
    class_of(answer) == class
}
