//! The sentence for each fault.
ghost use Rattle.std.specs.Prelude.{◌≡◌, ◌<◌, length};
ghost use Rattle.census_faults.specs.Rle.Sentences.{sentence_of};

use crate::rle::files::{FileKind, file_kind};
use crate::rle::header::rule_in_header;
use crate::rle::kinds::{RuleKind, rule_kind};
use life_cells::RuleFault;
use life_text::RleFault;

/// The sentence for a fault: what is wrong, and what would be right.
pub fn sentence(fault: RleFault) -> &'static str
    ensures sentence { result.now ≡ sentence_of fault }
    ensures told { 0 < length result.now }
{
    match fault {
        RleFault::NoHeader =>
            "there is no header line: the first line that is neither blank nor a comment must begin with `x`, as in `x = 3, y = 3`",
        RleFault::BadHeader =>
            "the header line is malformed: it must have the form `x = 3, y = 3` or `x = 3, y = 3, rule = B3/S23`",
        RleFault::Rule(RuleFault::NotLifeLike) =>
            "the rule has no Life-like form: it must be written as `B3/S23`, `S23/B3` or `23/3`, with digits from 0 to 8",
        RleFault::Rule(RuleFault::HasB0) =>
            "the rule has 0 among its births, so that cells come alive with no live neighbour: its births must be from 1 to 8",
        RleFault::ManyStates { at: _ } =>
            "a letter stands for neither of the two states: dead cells must be `b` or `.`, and live cells `o` or `A`",
        RleFault::BadChar { at: _ } =>
            "a byte has no meaning here: the body must be made of counts, `b`, `.`, `o`, `A`, `$`, `!` and blanks",
        RleFault::BadRun { at: _ } =>
            "a count is 0 or has nothing to count: it must be 1 or more and stand before a cell or `$`",
        RleFault::TooFar { at: _ } =>
            "a live cell is too far out: its column and its row, counted from 0, must be at most 1048575",
        RleFault::TooMany { at: _ } =>
            "there are too many live cells: a pattern must have at most 1048576",
        RleFault::NoEnd => "the text ends too early: its body must end with `!`",
        RleFault::Memory =>
            "memory ran out: what was given may be right, but more memory is needed",
    }
}

/// The sentence for a kind of rule that is not Life-like: what is wrong, and what would be right.
pub fn rule_sentence(kind: RuleKind) -> &'static str {
    match kind {
        RuleKind::Named =>
            "the rule is given by a name: it must be a Life-like rule that is written out, as `B3/S23`",
        RuleKind::Bounded =>
            "the rule has a bounded grid: it must end before the `:`, since patterns live on the unbounded plane here",
        RuleKind::History =>
            "the rule has more states than two, as LifeHistory has: it must be Life-like, with two states, as `B3/S23`",
        RuleKind::Generations =>
            "the rule is one of Generations, with a number of states: it must be Life-like, with two states, as `B3/S23`",
        RuleKind::LargerThanLife =>
            "the rule is one of Larger than Life, with a range: it must be Life-like, with the eight nearest neighbours, as `B3/S23`",
        RuleKind::NonTotalistic =>
            "the rule is isotropic non-totalistic, with letters for arrangements: it must count live neighbours alone, as `B3/S23`",
        RuleKind::Blank =>
            "the rule has a blank inside: it must be written without blanks, as `B3/S23`",
        RuleKind::Other =>
            "the rule has no Life-like form: it must be written as `B3/S23`, `S23/B3` or `23/3`, with digits from 0 to 8",
    }
}

/// The sentence for a kind of text without a header line: what it is, and what would be right.
pub fn file_sentence(kind: FileKind) -> &'static str {
    match kind {
        FileKind::Gzip =>
            "the text is compressed by gzip: it must be unpacked first, as `gunzip` does",
        FileKind::Macrocell =>
            "the text is a macrocell file: it must be in the format RLE, in which Golly can save it",
        FileKind::OldLife =>
            "the text is in the format Life 1.05 or Life 1.06: it must be in the format RLE, in which Golly can save it",
        FileKind::Plaintext =>
            "the text is a drawing in plaintext, with `.` and `O`: it must be in the format RLE, in which Golly can save it",
        FileKind::ByteOrderMark =>
            "a byte order mark stands before the first line: the text must begin without it",
        FileKind::Other => sentence(RleFault::NoHeader),
    }
}

/// The sentence for a fault of a text. Where there is no header line, it says what the text is instead. Where the rule is not
/// Life-like, it says of which kind the header's rule is.
pub fn words_of(text: &[u8], fault: RleFault) -> &'static str {
    match fault {
        RleFault::NoHeader => file_sentence(file_kind(text)),
        RleFault::Rule(RuleFault::NotLifeLike) => match rule_in_header(text) {
            Some(rule) => rule_sentence(rule_kind(rule)),
            None => sentence(fault),
        },
        _ => sentence(fault),
    }
}
