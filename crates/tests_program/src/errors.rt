//! The messages of errors, and the pattern that is named where memory ran out.

use census_bundle::{AddFault, BundleFault, Ticket, read_bundle};
use census_errors::{
    AdvanceError, CommandError, DrawError, RunError, RunStopped, kept_place, run_saying, say_if,
};
use census_faults::{BytesFault, RunFault};
use std::alloc::{AllocError, Global};
use std::fmt::Display;
use std::test::Fail;
use watched::{Output, ReadFault};

const TWO_PATTERNS: &[u8] = b"@folder a\n@file b.rle\no!\n@file c.rle\no!\n";

#[test]
fn lines_on_standard_error_are_the_texts_of_errors(rt: HostRuntime) -> Result<(), Fail> {
    const ERRORS: &[(CommandError, &str)] = &[
        (
            CommandError::Run(RunError::Bundle(BundleFault::BadName { line: 1_234_567 })),
            "census: bundle fault 4 at line 1234567\n",
        ),
        (
            CommandError::Run(RunError::Folder(AddFault::TooMany)),
            "census: folder fault 3\n",
        ),
        (
            CommandError::Run(RunError::TooLong),
            "census: input too long\n",
        ),
        (CommandError::Run(RunError::Read), "census: read failed\n"),
        (
            CommandError::Advance(AdvanceError::Memory),
            "census: out of memory\n",
        ),
        (
            CommandError::Draw(DrawError::Write),
            "census: write failed\n",
        ),
        (CommandError::Arguments, "census: bad command line\n"),
    ];
    for (error, line) in ERRORS {
        let text = format!(in rt.alloc(); "census: {error}\n")?;
        assert!(rt; error.line().as_str() == *line && text.as_str() == *line);
    }
    Ok(())
}

// True where this is the message of a fault.
fn says<D: Display>(alloc: Global, fault: &D, text: &str) -> Result<bool, AllocError> {
    let shown = format!(in alloc; "{fault}")?;
    Ok(shown.as_str() == text)
}

#[test]
fn faults_say_what_happened(rt: HostRuntime) -> Result<(), Fail> {
    let alloc = rt.alloc();
    let line = BundleFault::BadAtLine { line: 12 };
    assert!(rt; says(alloc, &AddFault::NoFolder, "folder fault 2")?);
    assert!(rt; says(alloc, &RunFault::Memory { ticket: None }, "out of memory")?);
    assert!(rt; says(alloc, &RunFault::Write, "write failed")?);
    for (fault, text) in [
        (BytesFault::Read, "read failed"),
        (BytesFault::TooLong, "input too long"),
        (BytesFault::Bundle(line), "bundle fault 3 at line 12"),
        (BytesFault::Memory, "out of memory"),
        (BytesFault::Write, "write failed"),
    ] {
        assert!(rt; says(alloc, &fault, text)?);
    }
    for (fault, text) in [
        (ReadFault::Read, "read failed"),
        (ReadFault::TooLong, "input too long"),
        (ReadFault::Memory, "out of memory"),
    ] {
        assert!(rt; says(alloc, &fault, text)?);
    }
    Ok(())
}

#[test]
fn a_pattern_for_which_memory_ran_out_is_named(rt: HostRuntime) -> Result<(), Fail> {
    const LINE: &[u8] =
        b"  pattern 2 of collection 1: memory ran out: what was given may be right, but more memory is needed\n";
    let ticket = Some(Ticket {
        folder: 1,
        number: 2,
    });
    let error = RunError::Memory { ticket };
    let place = kept_place(rt.alloc(), error);
    let mut errors = Output::new(Vec::new(rt.alloc()));
    say_if(true, run_saying(error).at(&place), &mut errors);
    assert!(rt; errors.into_inner().as_slice() == LINE);
    // A pattern of a folder is named by its path.
    let bundle = read_bundle(rt.alloc(), TWO_PATTERNS)?;
    let stopped = RunStopped::running(rt.alloc(), &bundle, RunFault::Memory { ticket });
    let path = stopped.place.path.as_ref().map(|path| path.as_slice());
    assert!(rt; path == Some(b"a/c.rle".as_slice()));
    Ok(())
}
