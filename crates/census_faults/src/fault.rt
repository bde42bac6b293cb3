//! Faults of every kind.

use crate::rle::{FileKind, RuleKind, file_kind, rule_in_header, rule_kind};
use census_bundle::{AddFault, BundleFault};
use life_cells::{CodeFault, RuleFault};
use life_text::RleFault;

/// A fault of any kind, wherever it is reported.
#[derive(Clone, Copy, Debug, PartialEq, Eq, Drop)]
pub enum Fault {
    /// An RLE text has this fault.
    Text(RleFault),
    /// A text has no header line, but is of this kind.
    File(FileKind),
    /// A rule is not Life-like, but of this kind.
    Rule(RuleKind),
    /// A bundle text has this fault.
    Bundle(BundleFault),
    /// A folder, or a file of one, is refused.
    Folder(AddFault),
    /// The body of a code has this fault.
    Code(CodeFault),
    /// A line is not one that a report has there.
    Report,
    /// A row is not one that claims have.
    Claims,
    /// A line is not one of a code and its name.
    Names,
    /// A text, a file or a bundle has more than 67,108,864 bytes.
    TooLong,
    /// A folder can't be listed, or a file or standard input can't be read.
    Read,
    /// There is a file where a folder is wanted.
    FileForFolder,
    /// Standard output has failed.
    Write,
    /// An argument is not text.
    Arguments,
    /// Memory ran out.
    Memory,
}

/// The fault of an RLE text. Where the text has no header line, this is the kind of file that it is instead, and where the rule
/// is not Life-like, the kind of the rule that the header names.
pub fn text_fault(text: &[u8], fault: RleFault) -> Fault {
    match fault {
        RleFault::NoHeader => Fault::File(file_kind(text)),
        RleFault::Rule(RuleFault::NotLifeLike) => match rule_in_header(text) {
            Some(rule) => Fault::Rule(rule_kind(rule)),
            None => Fault::Text(fault),
        },
        _ => Fault::Text(fault),
    }
}

/// The fault of a rule text: the kind of rule that it names where it is not Life-like, and any other fault as for the rule of an
/// RLE text.
pub fn rule_fault(rule: &[u8], fault: RuleFault) -> Fault {
    match fault {
        RuleFault::NotLifeLike => Fault::Rule(rule_kind(rule)),
        _ => Fault::Text(RleFault::Rule(fault)),
    }
}
