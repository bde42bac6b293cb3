//! Faults, and the lines that explain them.

use census_bundle::{AddFault, BundleFault, read_bundle};
use census_faults::{
    Fault, FileKind, Lines, RuleKind, Words, fault_line, printable_text, refusal_lines, sentence,
};
use life_cells::{CodeFault, RuleFault};
use life_text::{RleFault, read_rle};
use std::test::Fail;

const FAULT_START: &[u8] = b"3:2: a count is 0";

const FAULT_END: &[u8] = b" or `$` (rle fault 7 at 18)";

const BROKEN_BUNDLE: &[u8] = b"@folder demo\n@file broken\nx = 3, y = 3\n3o$\nb0o!";

const HOSTILE: &[u8] = b" a\n\x00\x1f\x7f\\~\x80\xff";

const HARMLESS: &[u8] = b" a\\x0a\\x00\\x1f\\x7f\\~\x80\xff";

const HARMLESS_LINE: &[u8] = b"   a\\x0a\\x00\\x1f\\x7f\\~\x80\xff\n";

const TEXT: &[u8] = b"x = 3, y = 3\n3o$\nb0o!";

const REFUSAL: &str =
    "  demo/broken:3:2: a count is 0 or has nothing to count: it must be 1 or more and stand before a cell or `$`\n";

#[test]
fn faults_are_explained(rt: HostRuntime) -> Result<(), Fail> {
    let alloc = rt.alloc();
    let fault = read_rle(alloc, TEXT).err().ok_or("no fault")?;
    let line = fault_line(alloc, TEXT, &fault)?;
    assert!(rt; line.as_slice().starts_with(FAULT_START));
    assert!(rt; line.as_slice().ends_with(FAULT_END));
    let bundle = read_bundle(alloc, BROKEN_BUNDLE)?;
    assert!(rt; refusal_lines(alloc, &bundle, &[])?.as_slice() == REFUSAL.as_bytes());
    // (out of memory, which no row shows)
    let memory = "memory ran out: what was given may be right, but more memory is needed";
    assert!(rt; sentence(Fault::Text(RleFault::Memory)) == memory);
    Ok(())
}

#[test]
fn what_is_said_has_no_control_character(rt: HostRuntime) -> Result<(), Fail> {
    let alloc = rt.alloc();
    let shown = printable_text(alloc, HOSTILE)?;
    assert!(rt; shown.as_slice() == HARMLESS);
    let mut words = Words::none(alloc);
    words.add(HOSTILE)?;
    let mut lines = Lines::none(alloc);
    lines.push(&words)?;
    assert!(rt; lines.as_slice() == HARMLESS_LINE);
    Ok(())
}

#[test]
fn no_two_faults_have_one_sentence(rt: HostRuntime) -> Result<(), Fail> {
    // (a rule that isn't Life-like, or a text without a header line, is a fault of the text where no more is known about it)
    const FAULTS: &[Fault] = &[
        Fault::Text(RleFault::NoHeader),
        Fault::Text(RleFault::BadHeader),
        Fault::Text(RleFault::Rule(RuleFault::NotLifeLike)),
        Fault::Text(RleFault::Rule(RuleFault::HasB0)),
        Fault::Text(RleFault::ManyStates { at: 0 }),
        Fault::Text(RleFault::BadChar { at: 0 }),
        Fault::Text(RleFault::BadRun { at: 0 }),
        Fault::Text(RleFault::TooFar { at: 0 }),
        Fault::Text(RleFault::TooMany { at: 0 }),
        Fault::Text(RleFault::NoEnd),
        Fault::File(FileKind::Gzip),
        Fault::File(FileKind::Macrocell),
        Fault::File(FileKind::OldLife),
        Fault::File(FileKind::Plaintext),
        Fault::File(FileKind::ByteOrderMark),
        Fault::Rule(RuleKind::Named),
        Fault::Rule(RuleKind::Bounded),
        Fault::Rule(RuleKind::History),
        Fault::Rule(RuleKind::Generations),
        Fault::Rule(RuleKind::LargerThanLife),
        Fault::Rule(RuleKind::NonTotalistic),
        Fault::Rule(RuleKind::Blank),
        Fault::Bundle(BundleFault::StrayText { line: 1 }),
        Fault::Bundle(BundleFault::FileBeforeFolder { line: 1 }),
        Fault::Bundle(BundleFault::BadAtLine { line: 1 }),
        Fault::Bundle(BundleFault::BadName { line: 1 }),
        Fault::Bundle(BundleFault::TooMany { line: 1 }),
        Fault::Folder(AddFault::BadName),
        Fault::Folder(AddFault::NoFolder),
        Fault::Folder(AddFault::TooMany),
        Fault::Code(CodeFault::Empty),
        Fault::Code(CodeFault::BadChar { at: 0 }),
        Fault::Code(CodeFault::CutRun { at: 0 }),
        Fault::Code(CodeFault::TooFar { at: 0 }),
        Fault::Report,
        Fault::Claims,
        Fault::Names,
        Fault::TooLong,
        Fault::Read,
        Fault::FileForFolder,
        Fault::Write,
        Fault::Arguments,
        Fault::Memory,
    ];
    for (count, fault) in FAULTS.iter().enumerate() {
        for other in FAULTS.iter().take(count) {
            assert!(rt; sentence(*fault) != sentence(*other));
        }
    }
    Ok(())
}
