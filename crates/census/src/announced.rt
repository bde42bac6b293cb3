//! Standard input that announces that it is read.
ghost use Rattle.std.specs.Prelude.{◌≡◌};

use crate::screen::Screen;
use std::io;
use std::io::{Eprint, Read};
use std::time::Clock;

/// A reader that announces on standard error, before its first read, that standard input is read.
#[derive(Drop)]
pub struct Announced<'a, I, R> {
    reader: I,
    is_told: bool,
    screen: &'a Screen<'a, R>,
}

impl<'a, I: Read, R: Clock + Eprint> Announced<'a, I, R> {
    /// A reader that announces this if standard input is a terminal, and otherwise announces nothing.
    pub fn new(reader: I, is_terminal: bool, screen: &'a Screen<'a, R>) -> Self
        ensures { I.remaining result.reader ≡ I.remaining reader }
    {
        Announced {
            reader,
            is_told: !is_terminal,
            screen,
        }
    }
}

impl<'a, I: Read, R: Clock + Eprint> Read for Announced<'a, I, R> {
    ghost remaining = { λ r. I.remaining r.reader };

    fn read(&mut self, buffer: &mut [u8]) -> io::Result<usize> {
        if !self.is_told {
            self.is_told = true;
            self.screen.tell_reading();
        }
        self.reader.read(buffer)
    }
}
