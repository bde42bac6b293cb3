//! Explanations in words beside an error or a report: whole lines without control characters.

use crate::printing::printable_text;
use std::alloc::{AllocError, Global};
use std::marker::Model;

/// Words without a control character.
#[derive(Drop)]
pub struct Words {
    bytes: Vec<u8>,
}

impl Model for Words {
    ghost use Rattle.std.specs.Prelude.{◌≡◌, true, List, ℕ};
    ghost use Rattle.std.specs.List.{list_all};
    ghost use Rattle.census_bundle.specs.Names.{is_name_byte};

    ghost Value = { List ℕ };

    ghost view = { λ w. w.bytes.items };

    ghost invariant = { λ w. list_all is_name_byte w.bytes.items ≡ true };
}

impl Words {
    ghost use Rattle.std.specs.Prelude.{◌≡◌, true, []};
    ghost use Rattle.std.specs.List.{list_all};
    ghost use Rattle.census_bundle.specs.Names.{is_name_byte};

    /// No words. It takes no memory.
    pub fn none(alloc: Global) -> Words
        ensures { result ≡ [] }
    {
        Words {
            bytes: Vec::new(alloc),
        }
    }

    /// Adds these bytes, as `printable_text` shows them. If memory runs out, the words are unchanged.
    pub fn add(&mut self, bytes: &[u8]) -> Result<(), AllocError> {
        let shown = printable_text(*self.bytes.allocator(), bytes)?;
        self.bytes.extend_from_slice(shown.as_slice())
    }

    /// The bytes of the words. It takes no memory.
    pub fn as_slice(&self) -> &[u8]
        ensures value { result.now ≡ self.now }
        ensures shown { list_all is_name_byte self.now ≡ true }
    {
        self.bytes.as_slice()
    }
}

/// Lines that each begin with two blanks and have no control character.
#[derive(Drop)]
pub struct Lines {
    bytes: Vec<u8>,
}

impl Model for Lines {
    ghost use Rattle.std.specs.Prelude.{List, ℕ};
    ghost use Rattle.census_faults.specs.Explanations.{AreLines};

    ghost Value = { List ℕ };

    ghost view = { λ l. l.bytes.items };

    ghost invariant = { λ l. AreLines l.bytes.items };
}

impl Lines {
    ghost use Rattle.std.specs.Prelude.{◌≡◌, []};
    ghost use Rattle.census_faults.specs.Explanations.{AreLines};

    /// No line. It takes no memory.
    pub fn none(alloc: Global) -> Lines
        ensures { result ≡ [] }
    {
        Lines {
            bytes: Vec::new(alloc),
        }
    }

    /// Adds a line: two blanks, these words, and LF. If memory runs out, the lines are unchanged.
    pub fn push(&mut self, words: &Words) -> Result<(), AllocError> {
        let mut line = Vec::new(*self.bytes.allocator());
        line.extend_from_slice(b"  ")?;
        line.extend_from_slice(words.as_slice())?;
        line.extend_from_slice(b"\n")?;
        self.bytes.extend_from_slice(line.as_slice())
    }

    /// The bytes of the lines. It takes no memory.
    pub fn as_slice(&self) -> &[u8]
        ensures value { result.now ≡ self.now }
        ensures lines { AreLines self.now }
    {
        self.bytes.as_slice()
    }
}
