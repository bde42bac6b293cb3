//! The standard streams of a program, each of which remembers that it failed.
ghost use Rattle.std.specs.Prelude.{◌≡◌, false};

use crate::input::Input;
use crate::output::Output;
use std::io::{Read, Write};
use std::marker::Model;

/// Standard input, standard output and standard error. A clause sees what is left to read, what was written on each of the
/// other two, and which have failed.
#[derive(Drop)]
pub struct Streams<I: Read, O: Write, E: Write> {
    pub input: Input<I>,
    pub output: Output<O>,
    pub errors: Output<E>,
}

impl<I: Read, O: Write, E: Write> Model for Streams<I, O, E> {
    ghost use Rattle.watched.specs.Streams as standard;

    ghost Value = { standard.Streams };

    ghost view = { λ s. record {
      input = s.input.stream;
      output = s.output.stream;
      errors = s.errors.stream;
    } };
}

impl<I: Read, O: Write, E: Write> Streams<I, O, E> {
    /// A reader and two writers, none of which has failed yet.
    pub fn new(input: I, output: O, errors: E) -> Streams<I, O, E>
        ensures unread { result.input.unread ≡ I.remaining input }
        ensures written { result.output.written ≡ O.contents output }
        ensures told { result.errors.written ≡ E.contents errors }
        ensures sound { (result.input.failed ≡ false) × (result.output.failed ≡ false)
            × (result.errors.failed ≡ false) }
    {
        Streams {
            input: Input::new(input),
            output: Output::new(output),
            errors: Output::new(errors),
        }
    }

    /// The reader and the writers, as the last call left them.
    pub fn into_inner(self) -> (I, O, E)
        ensures unread { I.remaining result.0 ≡ self.input.unread }
        ensures written { O.contents result.1 ≡ self.output.written }
        ensures told { E.contents result.2 ≡ self.errors.written }
    {
        let Streams {
            input,
            output,
            errors,
        } = self;
        (input.into_inner(), output.into_inner(), errors.into_inner())
    }
}
