//! What is said of each error.

use crate::advance_error::AdvanceError;
use crate::draw_error::DrawError;
use crate::error::CommandError;
use crate::files::file_of;
use crate::run_error::RunError;
use crate::saying::Saying;
use census_bundle::AddFault;
use census_cli::Request;
use census_faults::{Fault, Spot, rule_fault, sentence, spot_of_bundle, spot_of_code};

// What is said of a pattern that has too many cells.
const TOO_MANY_CELLS: &str =
    "the pattern outgrows the limit on its cells: each generation must have at most as many as `--cells` allows";

// A sentence about this place of a file, or of standard input where there is none.
fn said<'a>(sentence: &'static str, file: Option<&'a str>, spot: Spot) -> Saying<'a> {
    let name = match file {
        Some(file) => Some(file.as_bytes()),
        None => None,
    };
    Saying {
        sentence,
        name,
        spot,
        word: None,
    }
}

// A fault at this place of what is no file, or of a file that is not known.
fn at<'a>(fault: Fault, spot: Spot) -> Saying<'a> {
    said(sentence(fault), None, spot)
}

// A fault at this place of a file, or of standard input where there is none.
fn of_file<'a>(fault: Fault, file: Option<&'a str>, spot: Spot) -> Saying<'a> {
    said(sentence(fault), file, spot)
}

/// What is said of an error of `run` or of `objects`.
pub fn run_saying<'a>(error: RunError) -> Saying<'a> {
    match error {
        RunError::Bundle(fault) => at(Fault::Bundle(fault), spot_of_bundle(fault)),
        RunError::Folder(fault) => at(Fault::Folder(fault), Spot::Nowhere),
        RunError::TooLong => at(Fault::TooLong, Spot::Nowhere),
        RunError::Memory { .. } => at(Fault::Memory, Spot::Nowhere),
        RunError::Read => at(Fault::Read, Spot::Nowhere),
        RunError::Write => at(Fault::Write, Spot::Nowhere),
    }
}

// What is said of an error of `advance` at a file, or at standard input where there is none.
fn advance_saying<'a>(file: Option<&'a str>, error: AdvanceError) -> Saying<'a> {
    match error {
        AdvanceError::Text { told, spot, .. } => of_file(told, file, spot),
        AdvanceError::TooManyCells { .. } => said(TOO_MANY_CELLS, file, Spot::Nowhere),
        AdvanceError::TooLong => of_file(Fault::TooLong, file, Spot::Nowhere),
        AdvanceError::Memory => at(Fault::Memory, Spot::Nowhere),
        AdvanceError::Read(_) => of_file(Fault::Read, file, Spot::Nowhere),
        AdvanceError::Write => at(Fault::Write, Spot::Nowhere),
    }
}

// What is said of an error of `draw` at a code and a rule.
fn draw_saying<'a>(code: &[u8], rule: &[u8], error: DrawError) -> Saying<'a> {
    match error {
        DrawError::Rule(fault) => at(rule_fault(rule, fault), Spot::Nowhere),
        DrawError::Code(fault) => at(Fault::Code(fault), spot_of_code(code, fault)),
        DrawError::Memory => at(Fault::Memory, Spot::Nowhere),
        DrawError::Write => at(Fault::Write, Spot::Nowhere),
    }
}

// The file of a request for `advance`, where it names one.
fn advanced<'r>(request: &'r Request<'_>) -> Option<&'r str> {
    match request {
        Request::Advance { file, .. } => file_of(*file),
        _ => None,
    }
}

// What is said of an error of a request for `draw`.
fn drawing<'r>(request: &'r Request<'_>, error: DrawError) -> Saying<'r> {
    match request {
        Request::Draw { code, rule } => draw_saying(code.as_bytes(), rule.as_bytes(), error),
        _ => draw_saying(b"", b"", error),
    }
}

/// What is said of an error of this request.
pub fn saying_of<'r>(request: &'r Request<'_>, error: CommandError) -> Saying<'r> {
    match error {
        CommandError::Run(error) => run_saying(error),
        CommandError::Advance(error) => advance_saying(advanced(request), error),
        CommandError::Draw(error) => drawing(request, error),
        CommandError::Arguments => at(Fault::Arguments, Spot::Nowhere),
        CommandError::Memory => at(Fault::Memory, Spot::Nowhere),
        CommandError::Write => at(Fault::Write, Spot::Nowhere),
    }
}
