//! The sentence for each fault.

use crate::fault::Fault;
use crate::rle::{file_sentence, rule_sentence, sentence as text_sentence};
use census_bundle::{AddFault, BundleFault};
use life_cells::CodeFault;
use life_text::RleFault;

// The sentence for a fault of a bundle text.
fn bundle_sentence(fault: BundleFault) -> &'static str {
    match fault {
        BundleFault::StrayText { line: _ } =>
            "text stands on a line that belongs to no pattern: it must come after a line `@file NAME`",
        BundleFault::FileBeforeFolder { line: _ } =>
            "a line `@file NAME` stands before the first folder: a line `@folder NAME` must come before it",
        BundleFault::BadAtLine { line: _ } =>
            "a line begins with `@` and says nothing that is known: it must begin with `@folder ` or `@file `, and a name must follow",
        BundleFault::BadName { line: _ } =>
            "the name on a line is not lawful: it must have 1 to 255 bytes, none of them a control character, and no blank at either end",
        BundleFault::TooMany { line: _ } =>
            "a bundle has too many folders, or too many files in one: it must have at most 65535 folders, and each at most 65535 files",
        BundleFault::Memory => text_sentence(RleFault::Memory),
    }
}

// The sentence for a fault of a folder, or of a file of one.
fn folder_sentence(fault: AddFault) -> &'static str {
    match fault {
        AddFault::BadName =>
            "the name of a folder or of a file is not lawful: it must have 1 to 255 bytes, none of them a control character, and no blank at either end",
        AddFault::NoFolder =>
            "there is no folder that a pattern could go to: a folder must be added before its first pattern",
        AddFault::TooMany =>
            "there are too many folders, or too many pattern files in one: there must be at most 65535 folders, and in each at most 65535 such files",
        AddFault::Memory => text_sentence(RleFault::Memory),
    }
}

// The sentence for a fault of the body of a code.
fn code_sentence(fault: CodeFault) -> &'static str {
    match fault {
        CodeFault::Empty =>
            "the code has no body: something must follow its first `_`, as `153` in `xq4_153`",
        CodeFault::BadChar { at: _ } =>
            "a byte has no meaning in a code: its body must be made of digits and of letters from `a` to `z`",
        CodeFault::CutRun { at: _ } =>
            "a `y` has no count in a code: a digit or a letter from `a` to `z` must follow it",
        CodeFault::TooFar { at: _ } =>
            "a live cell of the code is too far out: its column and its row, counted from 0, must be at most 1048575",
        CodeFault::Memory => text_sentence(RleFault::Memory),
    }
}

/// The sentence for a fault: what is wrong, and what would be right.
pub fn sentence(fault: Fault) -> &'static str {
    match fault {
        Fault::Text(fault) => text_sentence(fault),
        Fault::File(kind) => file_sentence(kind),
        Fault::Rule(kind) => rule_sentence(kind),
        Fault::Bundle(fault) => bundle_sentence(fault),
        Fault::Folder(fault) => folder_sentence(fault),
        Fault::Code(fault) => code_sentence(fault),
        Fault::Report =>
            "a line is not one that a report has in this place: it must be as `census run` or `census objects` writes it",
        Fault::Claims =>
            "a row is not one of claims: the first must have a column `name`, each other as many cells, and numbers as `census table` has them",
        Fault::Names =>
            "a line is not one of a name: it must be a code, a tab and a name, and no code may stand twice",
        Fault::TooLong =>
            "there are too many bytes: a text must have at most 67108864, and all files of folders or all reports at most as many as `--input` says",
        Fault::Read =>
            "reading failed: a folder must be one that can be listed, and a file a regular file that can be read",
        Fault::FileForFolder =>
            "a file stands where a folder is wanted: `census identify FILE` tells what the pattern of a file is",
        Fault::Write => "writing failed: what the output goes to must stay open and have room",
        Fault::Arguments => "an argument is no text: each must be in UTF-8",
        Fault::Memory => text_sentence(RleFault::Memory),
    }
}
