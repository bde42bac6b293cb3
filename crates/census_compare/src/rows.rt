//! Rows of comma-separated values, read one after another.
ghost use Rattle.std.specs.Prelude.{◌≡◌, ◌+◌, ◌<◌, ◌≤◌, ◌^◌, [], ◌∷◌, ℕ, IfOk, List, MatchOption, OnOk, length, option_map};
ghost use Rattle.std.specs.Option.{option_to_list};
ghost use Rattle.census_compare.specs.Read.{HasLines, begun_read, row_read, rows_left, step_rows};
ghost use Rattle.census_compare.specs.Rows.{begun_on, cell_ended, line_of, rows_from, rows_of, with_byte, without_mark};

use crate::place::{Move, Place, move_of};
use std::alloc::{AllocError, Global};
use std::mem;

/// A row of a text.
#[derive(Drop)]
pub enum TextRow {
    /// It begins on this line and has these cells.
    Whole(usize, Vec<Vec<u8>>),
    /// It begins on this line and is faulty.
    Broken(usize),
}

impl TextRow {
    /// The line on which it begins.
    pub fn line(&self) -> usize
        ensures { result ≡ line_of (row_read self.now) }
    {
        match self {
            TextRow::Whole(line, _) => *line,
            TextRow::Broken(line) => *line,
        }
    }
}

/// What a row is after one more byte.
#[derive(Clone, Copy)]
pub enum Step {
    /// It goes on.
    More,
    /// It has ended, on the line before this one.
    End,
    /// It is faulty.
    Fault,
}

/// A row that is being read.
#[derive(Drop)]
pub struct Begun {
    pub place: Place,
    pub begun: usize,
    pub line: usize,
    pub cells: Vec<Vec<u8>>,
    pub cell: Vec<u8>,
}

impl Begun {
    // A row of which nothing has been read, on this line.
    fn on(alloc: Global, line: usize) -> Begun
        ensures { begun_read result ≡ begun_on line }
    {
        Begun {
            place: Place::Start,
            begun: line,
            line,
            cells: Vec::new(alloc),
            cell: Vec::new(alloc),
        }
    }

    // Adds a byte to the cell.
    fn add(&mut self, place: Place, byte: u8) -> Result<(), AllocError>
        requires { self.old.line < 2 ^ 63 }
        ensures { OnOk result (begun_read self.new ≡ with_byte place byte (begun_read self.old)) }
    {
        self.cell.push(byte)?;
        if byte == b'\n' {
            self.line += 1;
        }
        self.place = place;
        Ok(())
    }

    // Ends the cell.
    fn end_cell(&mut self, alloc: Global) -> Result<(), AllocError>
        ensures { OnOk result (begun_read self.new ≡ cell_ended (begun_read self.old)) }
    {
        self.cells
            .push(mem::replace(&mut self.cell, Vec::new(alloc)))?;
        self.place = Place::Start;
        Ok(())
    }

    // Reads a byte.
    fn take(&mut self, alloc: Global, byte: u8) -> Result<Step, AllocError>
        requires { self.old.line < 2 ^ 63 }
        ensures line { OnOk result (self.new.line ≤ self.old.line + 1) }
        ensures reads { (rest : List ℕ) → IfOk result (λ step.
            rows_from (begun_read self.old) (byte ∷ rest) ≡ step_rows step (begun_read self.new) rest) }
    {
        match move_of(self.place, byte) {
            Move::Add(place) => self.add(place, byte)?,
            Move::Pass(place) => self.place = place,
            Move::EndCell => self.end_cell(alloc)?,
            Move::EndRow => {
                self.end_cell(alloc)?;
                self.line += 1;
                return Ok(Step::End);
            }
            Move::Break => return Ok(Step::Fault),
        }
        Ok(Step::More)
    }

    // The row that the end of the text makes, if it makes one.
    fn end(self, alloc: Global) -> Result<Option<TextRow>, AllocError>
        ensures { IfOk result (λ row. rows_from (begun_read self) [] ≡ option_to_list (option_map row_read row)) }
    {
        let mut row = self;
        match row.place {
            Place::Start if row.cells.is_empty() => Ok(None),
            Place::Quoted | Place::Return => Ok(Some(TextRow::Broken(row.begun))),
            _ => {
                row.end_cell(alloc)?;
                Ok(Some(TextRow::Whole(row.begun, row.cells)))
            }
        }
    }
}

// A text without the byte order mark that it may begin with.
fn without_mark(text: &[u8]) -> &[u8]
    ensures { result.now ≡ without_mark text.now }
{
    match text {
        [0xef, 0xbb, 0xbf, rest @ ..] => rest,
        _ => text,
    }
}

/// The rows of a text that are not read yet. One row is held at a time.
#[derive(Clone, Copy)]
pub struct Reader<'a> {
    text: &'a [u8],
    line: usize,
}

impl<'a> Reader<'a> {
    /// The rows of a text, which may begin with a byte order mark.
    pub fn of(text: &'a [u8]) -> Reader<'a>
        ensures rows { rows_left result ≡ rows_of text.now }
        ensures lines { HasLines result }
    {
        Reader {
            text: without_mark(text),
            line: 1,
        }
    }

    /// Reads the next row, if there is one. None follows a faulty one.
    pub fn next(&mut self, alloc: Global) -> Result<Option<TextRow>, AllocError>
        requires { HasLines self.old }
        ensures rows { IfOk result (λ row. MatchOption row
            ((rows_left self.old ≡ []) × (rows_left self.new ≡ []))
            (λ read. rows_left self.old ≡ row_read read ∷ rows_left self.new)) }
        ensures lines { OnOk result (HasLines self.new) }
    {
        let text = self.text;
        let mut row = Begun::on(alloc, self.line);
        for index in 0..text.len() {
            match row.take(alloc, text[index])? {
                Step::More => {}
                Step::End => {
                    let (_, rest) = text.split_at(index + 1);
                    self.text = rest;
                    self.line = row.line;
                    return Ok(Some(TextRow::Whole(row.begun, row.cells)));
                }
                Step::Fault => {
                    self.text = &[];
                    return Ok(Some(TextRow::Broken(row.begun)));
                }
            }
        }
        self.text = &[];
        row.end(alloc)
    }
}
