//! The forms in which facts are reported.
ghost use Rattle.std.specs.Prelude.{◌≡◌, IfOk};
ghost use Rattle.census_facts.specs.Facts.{things_in};
ghost use Rattle.census_facts.specs.Forms.{separator, things_text};

use crate::fact::Fact;
use crate::lines::push_facts;
use crate::names::Names;
use crate::values::push_object;
use std::alloc::{AllocError, Global};

/// A form in which facts are reported.
#[derive(Clone, Copy, Debug, PartialEq, Eq)]
pub enum Form {
    /// One or more lines for each.
    Lines,
    /// A member for each, in one object on a line of its own.
    Json,
}

impl Form {
    /// The separator between the report of a pattern and the next: an empty line, or nothing.
    pub fn separator(self) -> &'static [u8]
        ensures { result.now ≡ separator self }
    {
        match self {
            Form::Lines => b"\n",
            Form::Json => b"",
        }
    }
}

/// The facts in this form, with the names of objects. The only error is out of memory.
pub fn facts_text(
    alloc: Global,
    form: Form,
    names: &Names,
    facts: &[Fact],
) -> Result<Vec<u8>, AllocError>
    ensures { IfOk result (λ text. text.items ≡ things_text form names.now (things_in facts.now)) }
{
    let mut text = Vec::new(alloc);
    match form {
        Form::Lines => push_facts(&mut text, names, facts)?,
        Form::Json => push_object(alloc, &mut text, names, facts)?,
    }
    Ok(text)
}
