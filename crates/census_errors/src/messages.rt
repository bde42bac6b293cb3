//! The line on standard error for each error.
ghost use Rattle.std.specs.Prelude.{◌≡◌, ◌≤◌, ◌++◌, codes, decimal, length};
ghost use Rattle.census_errors.specs.Messages.{advance_told, bundle_message, code_message, draw_told};
ghost use Rattle.census_errors.specs.Messages.{error_line, error_told, folder_message, run_told};

use crate::advance_error::AdvanceError;
use crate::draw_error::DrawError;
use crate::error::CommandError;
use crate::run_error::RunError;
use arrayvec::ArrayString;
use census_bundle::{AddFault, BundleFault};
use census_faults::{Message, fault_name, message, numbered};
use itoa::Buffer;
use life_cells::CodeFault;
use life_text::rule_number;

/// The most bytes of a line.
const LINE_LIMIT: usize = 80;

/// The message that consists of these words and a number after them.
pub fn message_at(words: &str, place: usize) -> Message
    requires { length words.now ≤ 40 }
    ensures { result.bytes ≡ words.now ++ decimal place }
{
    let mut buffer = Buffer::new();
    let mut message = ArrayString::new();
    message.push_str(words);
    message.push_str(buffer.format(place));
    message
}

fn code_message(fault: CodeFault) -> Message
    ensures { result.bytes ≡ code_message fault }
{
    match fault {
        CodeFault::Empty => numbered("code", 1, None),
        CodeFault::BadChar { at } => numbered("code", 2, Some(at)),
        CodeFault::CutRun { at } => numbered("code", 3, Some(at)),
        CodeFault::TooFar { at } => numbered("code", 4, Some(at)),
        CodeFault::Memory => message("out of memory"),
    }
}

fn bundle_message(fault: BundleFault) -> Message
    ensures { result.bytes ≡ bundle_message fault }
{
    match fault {
        BundleFault::StrayText { line } => message_at("bundle fault 1 at line ", line),
        BundleFault::FileBeforeFolder { line } => message_at("bundle fault 2 at line ", line),
        BundleFault::BadAtLine { line } => message_at("bundle fault 3 at line ", line),
        BundleFault::BadName { line } => message_at("bundle fault 4 at line ", line),
        BundleFault::TooMany { line } => message_at("bundle fault 5 at line ", line),
        BundleFault::Memory => message("out of memory"),
    }
}

fn folder_message(fault: AddFault) -> Message
    ensures { result.bytes ≡ folder_message fault }
{
    match fault {
        AddFault::BadName => numbered("folder", 1, None),
        AddFault::NoFolder => numbered("folder", 2, None),
        AddFault::TooMany => numbered("folder", 3, None),
        AddFault::Memory => message("out of memory"),
    }
}

fn cells_message(most: u32, generation: u32) -> Message
    ensures { result.bytes ≡ codes "more than " ++ decimal most ++ codes " cells at generation " ++ decimal generation }
{
    let mut buffer = Buffer::new();
    let mut message = ArrayString::new();
    message.push_str("more than ");
    message.push_str(buffer.format(most));
    message.push_str(" cells at generation ");
    message.push_str(buffer.format(generation));
    message
}

fn advance_message(fault: AdvanceError) -> Message
    ensures { result.bytes ≡ (advance_told fault).0 }
{
    match fault {
        AdvanceError::TooLong => message("input too long"),
        AdvanceError::Memory => message("out of memory"),
        AdvanceError::Read(_) => message("read failed"),
        AdvanceError::Write => message("write failed"),
        AdvanceError::Text { fault, .. } => fault_name(fault),
        AdvanceError::TooManyCells { most, generation } => cells_message(most, generation),
    }
}

fn draw_message(fault: DrawError) -> Message
    ensures { result.bytes ≡ (draw_told fault).0 }
{
    match fault {
        DrawError::Memory => message("out of memory"),
        DrawError::Write => message("write failed"),
        DrawError::Rule(fault) => numbered("rule", rule_number(fault), None),
        DrawError::Code(fault) => code_message(fault),
    }
}

fn run_message(fault: RunError) -> Message
    ensures { result.bytes ≡ (run_told fault).0 }
{
    match fault {
        RunError::TooLong => message("input too long"),
        RunError::Memory { .. } => message("out of memory"),
        RunError::Read => message("read failed"),
        RunError::Write => message("write failed"),
        RunError::Bundle(fault) => bundle_message(fault),
        RunError::Folder(fault) => folder_message(fault),
    }
}

fn error_message(fault: CommandError) -> Message
    ensures { result.bytes ≡ (error_told fault).0 }
{
    match fault {
        CommandError::Arguments => message("bad command line"),
        CommandError::Memory => message("out of memory"),
        CommandError::Write => message("write failed"),
        CommandError::Run(error) => run_message(error),
        CommandError::Advance(error) => advance_message(error),
        CommandError::Draw(error) => draw_message(error),
    }
}

impl CommandError {
    /// The line on standard error: `census: `, the message and a line feed. It asks for no memory.
    pub fn line(self) -> ArrayString<LINE_LIMIT>
        ensures { result.bytes ≡ error_line self }
    {
        let mut line = ArrayString::new();
        line.push_str("census: ");
        line.push_str(error_message(self).as_str());
        line.push_str("\n");
        line
    }
}
