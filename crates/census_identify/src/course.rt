//! The state of a report on several arguments.
ghost use Rattle.std.specs.Prelude.{◌≡◌, true, false, MatchResult, OnOk};
ghost use Rattle.watched.specs.Streams.{PutsMoreBytes, PutsPrefix, Writes};
ghost use Rattle.census_identify.specs.Telling.{block_after, line_told, output_of};
ghost use Rattle.census_identify.specs.Courses.{with_told};

use crate::told::Told;
use census_facts::Form;
use std::io::Write;
use watched::{Failed, Output, put_all};

/// The state of a report so far: whether there was a block, and the greatest status of a line.
#[derive(Drop)]
pub struct Course {
    pub has_block: bool,
    pub status: u8,
}

// Writes a block, with the separator of its form after the one before it.
fn write_block<O: Write>(
    form: Form,
    has_block: bool,
    block: &[u8],
    output: &mut Output<O>,
) -> Result<(), Failed>
    ensures { MatchResult result
        (λ _. Writes (block_after form has_block block.now)
        output.old.stream output.new.stream)
        (λ _. PutsPrefix (block_after form has_block block.now)
        output.old.stream output.new.stream) }
{
    if has_block {
        put_all(output, form.separator())?;
    }
    put_all(output, block)
}

/// Writes a block in this form to `output`, or a line to `errors`.
pub fn tell<O: Write, E: Write>(
    form: Form,
    told: &Told,
    course: &mut Course,
    output: &mut Output<O>,
    errors: &mut Output<E>,
) -> Result<(), Failed>
    requires { output.old.stream.failed ≡ false }
    ensures output { MatchResult result
        (λ _. Writes (output_of form course.old.has_block told.now)
        output.old.stream output.new.stream)
        (λ _. PutsPrefix (output_of form course.old.has_block told.now)
        output.old.stream output.new.stream) }
    ensures errors { PutsMoreBytes (line_told told.now)
        errors.old.stream errors.new.stream }
    ensures course { OnOk result (course.new ≡ with_told course.old told.now) }
{
    match told {
        Told::Block(block) => {
            write_block(form, course.has_block, block.as_slice(), output)?;
            course.has_block = true;
        }
        Told::Line { line, status } => {
            errors.tell(line.as_slice());
            course.status = course.status.max(*status);
        }
    }
    Ok(())
}
