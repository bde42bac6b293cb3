//! What is said of an error in addition to its line, where faults are explained.
ghost use Rattle.std.specs.Prelude.{◌≡◌, false, true};
ghost use Rattle.census_faults.specs.Printed.{printable_text, printed_byte};
ghost use Rattle.census_errors.specs.Explained.{Explains, TellsOf, TellsWords};
ghost use Rattle.census_errors.specs.Messages.{status_of};
ghost use Rattle.watched.specs.Streams.{PutsMoreBytes};

use crate::error::CommandError;
use crate::place::Place;
use arrayvec::ArrayString;
use census_faults::{Fault, Spot, is_name_byte, sentence};
use hex::encode_to_slice;
use itoa::Buffer;
use std::io::Write;
use watched::Output;

// The most bytes of a line and a column: two numbers of 20 digits and two `:`.
const SPOT_LIMIT: usize = 48;

/// What is said of an error: the sentence for its fault, the place of that, as far as it is known, and the system's word.
#[derive(Clone, Copy)]
pub struct Saying<'a> {
    pub sentence: &'static str,
    /// The file or the folder that has it.
    pub name: Option<&'a [u8]>,
    /// Its place there.
    pub spot: Spot,
    /// What the system says of it.
    pub word: Option<&'a [u8]>,
}

impl<'a> Saying<'a> {
    /// What is said of the error at this place, as far as the place is known. What the place leaves open is as in `self`.
    pub fn at(self, place: &'a Place) -> Saying<'a> {
        let sentence = if place.is_file {
            sentence(Fault::FileForFolder)
        } else {
            self.sentence
        };
        let name = match &place.path {
            Some(path) => Some(path.as_slice()),
            None => self.name,
        };
        let word = match &place.word {
            Some(word) => Some(word.as_slice()),
            None => self.word,
        };
        Saying {
            sentence,
            name,
            spot: self.spot,
            word,
        }
    }
}

// Writes a byte of a name as it is shown.
fn tell_byte<E: Write>(byte: u8, errors: &mut Output<E>)
    ensures { PutsMoreBytes (printed_byte byte) errors.old.stream errors.new.stream }
{
    if is_name_byte(byte) {
        errors.tell(&[byte]);
    } else {
        let mut digits = [0; 2];
        let _ = encode_to_slice([byte], &mut digits);
        errors.tell(b"\\x");
        errors.tell(&digits);
    }
}

/// Writes a name as it is shown.
pub fn tell_bytes<E: Write>(name: &[u8], errors: &mut Output<E>)
    ensures { PutsMoreBytes (printable_text name.now) errors.old.stream errors.new.stream }
{
    for byte in name {
        tell_byte(*byte, errors);
    }
}

// `LINE:` or `LINE:COLUMN:`, as far as they are known.
fn spot_text(spot: Spot) -> ArrayString<SPOT_LIMIT> {
    let mut text = ArrayString::new();
    let mut buffer = Buffer::new();
    match spot {
        Spot::Nowhere => {}
        Spot::Line(line) => {
            text.push_str(buffer.format(line));
            text.push_str(":");
        }
        Spot::At(place) => {
            text.push_str(buffer.format(place.line));
            text.push_str(":");
            text.push_str(buffer.format(place.column));
            text.push_str(":");
        }
    }
    text
}

// A text, or none.
fn part(is_there: bool, text: &'static str) -> &'static [u8] {
    if is_there { text.as_bytes() } else { b"" }
}

/// Writes bytes as they are shown.
pub fn tell_shown<E: Write>(bytes: &[u8], errors: &mut Output<E>)
    ensures { TellsWords errors.old.stream errors.new.stream }
{
    tell_bytes(bytes, errors);
}

// Writes what is known of the place of a fault, and a blank where anything is.
fn tell_place<E: Write>(saying: &Saying<'_>, errors: &mut Output<E>)
    ensures { TellsWords errors.old.stream errors.new.stream }
{
    let is_named = saying.name.is_some();
    let is_known = is_named || saying.spot != Spot::Nowhere;
    tell_shown(saying.name.unwrap_or(b""), errors);
    tell_shown(part(is_named, ":"), errors);
    tell_shown(spot_text(saying.spot).as_str().as_bytes(), errors);
    tell_shown(part(is_known, " "), errors);
}

// Writes the sentence for a fault, and ` (WORD)` where there is a word.
fn tell_fault<E: Write>(saying: &Saying<'_>, errors: &mut Output<E>)
    ensures { TellsWords errors.old.stream errors.new.stream }
{
    let has_word = saying.word.is_some();
    tell_shown(saying.sentence.as_bytes(), errors);
    tell_shown(part(has_word, " ("), errors);
    tell_shown(saying.word.unwrap_or(b""), errors);
    tell_shown(part(has_word, ")"), errors);
}

// Writes what is said of an error, in a line that begins with two blanks.
fn say<E: Write>(saying: &Saying<'_>, errors: &mut Output<E>)
    ensures { Explains true errors.old.stream errors.new.stream }
{
    errors.tell(b"  ");
    tell_place(saying, errors);
    tell_fault(saying, errors);
    errors.tell(b"\n");
}

/// Writes what is said of an error, where faults are explained, in a line that begins with two blanks, and asks for no memory.
/// Where the stream has failed before, the line is lost.
pub fn say_if<E: Write>(explain: bool, saying: Saying<'_>, errors: &mut Output<E>)
    ensures { Explains explain errors.old.stream errors.new.stream }
{
    if explain {
        say(&saying, errors);
    }
}

/// Reports an error by its line, and by what is said of it where faults are explained, and returns its exit status. A line that
/// can't be written changes nothing.
pub fn stop_saying<E: Write>(
    error: CommandError,
    saying: Saying<'_>,
    explain: bool,
    errors: &mut Output<E>,
) -> u8
    requires { errors.old.stream.failed ≡ false }
    ensures status { result ≡ status_of error }
    ensures lines { TellsOf error explain errors.old.stream errors.new.stream }
{
    errors.tell(error.line().as_str().as_bytes());
    say_if(explain, saying, errors);
    error.status()
}
